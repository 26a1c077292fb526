// Layer of the sweep: the plane rises past the vertices below a height, and the layer there is written from the ring table.
#![tactic(auto)]

ghost use Rattle.std.specs.Prelude.{◌≡◌};
ghost use Rattle.mesh.specs.Meshes.{ordered};
ghost use Rattle.mesh.specs.Operation.{verdict};
ghost use Rattle.mesh.specs.Refusals.{tell_verdict};
ghost use Rattle.cut.specs.Cut.{lent, lengths};
ghost use Rattle.sweep.specs.Sweep.{sweep};
ghost use Rattle.sweep.specs.Operations.{rise_tests, Rises};

use crate::unchecked::{raise, sweep_test};
use cut::tables_test;
use mesh::Refusal;
use sweep::{Risen, State};

pub mod unchecked;

// Refusals 1, 9, 2, 3, 4, 7, 8, 10, 11 and 12 of Layer, for lent tables of these lengths (LAYER-4).
fn rise_test(
    coords: &[i32],
    corners: &[u32],
    pairing: &[u32],
    order: &[u32],
    ring: &[u32],
    n: usize,
    h: i32,
    names: usize,
    points: usize,
    ends: usize,
    marks: usize,
) -> Result<(), Refusal>
    ensures told { tell_verdict result ≡ verdict (rise_tests
        (sweep
        (ordered coords.now corners.now pairing.now order.now)
        ring.now n)
        h (lengths names points ends marks)) }
{
    tables_test(coords, corners, pairing, names, points, ends, marks)?;
    sweep_test(coords, corners, pairing, order, ring, n, h)
}

// Layer at h: rises by steps until no unpassed vertex has z < h, and
// writes the contours that the ring table has there (LAYER-1 to LAYER-8).
pub fn layer(
    coords: &[i32],
    corners: &[u32],
    pairing: &[u32],
    order: &[u32],
    ring: &mut [u32],
    state: State,
    h: i32,
    names: &mut [u32],
    points: &mut [i32],
    ends: &mut [u32],
    marks: &mut [u32],
) -> Result<Risen, Refusal>
    ensures outcome { Rises (sweep
        (ordered coords.now corners.now pairing.now order.now)
        ring.old state.passed) h
        (lent names.old points.old ends.old marks.old) result ring.new
        (lent names.new points.new ends.new marks.new) }
{
    let n = state.passed;
    rise_test(
        coords,
        corners,
        pairing,
        order,
        ring,
        n,
        h,
        names.len(),
        points.len(),
        ends.len(),
        marks.len(),
    )?;
    raise(
        coords, corners, pairing, order, ring, n, h, names, points, ends, marks,
    )
}
