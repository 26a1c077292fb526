// The parts of Layer. Each `requires` says what the tests before it establish.
ghost use Rattle.std.specs.Prelude.{◌≡◌, ◌≤◌, length, get_or};
ghost use Rattle.laws.specs.Tables.{refill};
ghost use Rattle.mesh.specs.Corners.{vertex_count};
ghost use Rattle.mesh.specs.Meshes.{ordered, paired};
ghost use Rattle.mesh.specs.Operation.{verdict};
ghost use Rattle.mesh.specs.Refusals.{tell_verdict};
ghost use Rattle.section.specs.Section.{Right};
ghost use Rattle.cut.specs.Cut.{lent, lengths_of};
ghost use Rattle.cut.specs.Outlines.{Long};
ghost use Rattle.sweep.specs.Sweep.{sweep, risen_to};
ghost use Rattle.sweep.specs.Operations.{sweep_tests};
ghost use Rattle.sweep.specs.Places.{InOrder, RiseTested, Lifts};

use cut::unchecked::outline_rings;
use mesh::Refusal;
use section::unchecked_crossings::{link, link_at};
use sweep::tests::state_test;
use sweep::unchecked::{height_behind, number_behind};
use sweep::unchecked_tests::one_sweep_test;
use sweep::{Risen, State, SweepTest};

// How many vertices a rise to h passes, from n on: all that it passed and those after them with z < h.
pub fn risen_to(coords: &[i32], order: &[u32], n: usize, h: i32) -> usize
    requires fact_1 { n ≤ vertex_count coords.now }
    requires fact_2 { InOrder coords.now order.now }
    ensures value { result ≡ risen_to coords.now order.now h
        (vertex_count coords.now) n }
{
    let vertices = coords.len() / 3;
    for p in n..vertices {
        let w = order[p] as usize;
        let z = coords[3 * w + 2];
        if z >= h {
            return p;
        }
    }
    vertices
}

// Copies the first n entries, one by one: `copy_from_slice` would have the archive ask for memmove.
pub fn copy_front(from: &[u32], to: &mut [u32], n: usize)
    requires { (n ≤ length from.now) × (n ≤ length to.old) }
    ensures left { to.new ≡ refill n (λ c. get_or from.now c 0) to.old }
{
    for i in 0..n {
        to[i] = from[i];
    }
}

// Rises to h from n passed vertices, and writes the layer there from a copy of the ring table.
pub fn raise(
    coords: &[i32],
    corners: &[u32],
    pairing: &[u32],
    order: &[u32],
    ring: &mut [u32],
    n: usize,
    h: i32,
    names: &mut [u32],
    points: &mut [i32],
    ends: &mut [u32],
    marks: &mut [u32],
) -> Result<Risen, Refusal>
    requires fact_1 { RiseTested (sweep (ordered coords.now corners.now pairing.now order.now) ring.old n) h }
    requires fact_2 { Long (length corners.now) (lengths_of (lent names.old points.old ends.old marks.old)) }
    ensures outcome { Lifts (sweep
        (ordered coords.now corners.now pairing.now order.now)
        ring.old n) h
        (lent names.old points.old ends.old marks.old) result ring.new
        (lent names.new points.new ends.new marks.new) }
{
    let passed = risen_to(coords, order, n, h);
    link_at(coords, corners, pairing, h, ring);
    copy_front(ring, marks, corners.len());
    match outline_rings(coords, corners, h, names, points, ends, marks) {
        Ok(counts) => Ok(Risen {
            state: State { passed },
            counts,
        }),
        Err(r) => {
            let z = height_behind(coords, order, n);
            let i = number_behind(order, n);
            link(coords, corners, pairing, z, i, ring);
            Err(r)
        }
    }
}

// Refusals 8, 10, 11 and 12 of Layer.
pub fn sweep_test(
    coords: &[i32],
    corners: &[u32],
    pairing: &[u32],
    order: &[u32],
    ring: &[u32],
    n: usize,
    h: i32,
) -> Result<(), Refusal>
    requires { Right (paired coords.now corners.now pairing.now) }
    ensures told { tell_verdict result ≡ verdict (sweep_tests
        (sweep
        (ordered coords.now corners.now pairing.now order.now)
        ring.now n)
        h) }
{
    state_test(coords, corners, pairing, order, ring, n)?;
    one_sweep_test(SweepTest::Ring, coords, corners, pairing, order, ring, n, h)?;
    one_sweep_test(
        SweepTest::Height,
        coords,
        corners,
        pairing,
        order,
        ring,
        n,
        h,
    )
}
