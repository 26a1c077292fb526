// The sweep: a plane that starts below a mesh and rises past its vertices, with the rings of the section kept in a lent table.
#![tactic(auto)]

ghost use Rattle.std.specs.Prelude.{◌≡◌, length};
ghost use Rattle.mesh.specs.Meshes.{mesh, ordered};
ghost use Rattle.mesh.specs.Operation.{verdict};
ghost use Rattle.mesh.specs.Refusals.{tell_verdict};
ghost use Rattle.sweep.specs.Sweep.{sweep};
ghost use Rattle.sweep.specs.Operations.{start_tests, Starts, step_tests, Steps};

use crate::tests::state_test;
use crate::unchecked::relink;
use crate::unchecked_tests::one_sweep_test;
use mesh::Refusal;
use mesh::tests::size_test;
use mesh::unchecked::fill;
use mesh_tables::MeshTest;
use mesh_tables::tests::opening_test;
use polygons::LayerCounts;
use section::NO_CORNER;

pub mod tests;
pub mod unchecked;
pub mod unchecked_tests;

// The tests of a sweep: those of its mesh, of the passed count, of the ring table's length and its entries, and of the height.
#[derive(Clone, Copy, Debug, PartialEq, Eq)]
pub enum SweepTest {
    Mesh(MeshTest),
    Passed,
    Length,
    Ring,
    Height,
}

// How many vertices are passed: the first so many of the order (SWEEP-1).
#[derive(Clone, Copy, Debug, PartialEq, Eq)]
pub struct State {
    pub passed: usize,
}

// What Layer gives: the state after the rise, and the counts of contours and points.
#[derive(Clone, Copy, Debug, PartialEq, Eq)]
pub struct Risen {
    pub state: State,
    pub counts: LayerCounts,
}

// Refusals 1 and 9 of Start, for a ring table of this length (START-1).
fn start_test(coords: &[i32], corners: &[u32], ring: usize) -> Result<(), Refusal>
    ensures told { tell_verdict result ≡ verdict
        (start_tests (mesh coords.now corners.now) ring) }
{
    size_test(coords, corners)?;
    if ring < corners.len() {
        return Err(Refusal::Room(0));
    }
    Ok(())
}

// A fresh sweep: no vertex passed, and no crossing in the ring table (START-1 to START-6).
pub fn start(coords: &[i32], corners: &[u32], ring: &mut [u32]) -> Result<State, Refusal>
    ensures outcome { Starts (mesh coords.now corners.now) ring.old result
        ring.new }
{
    start_test(coords, corners, ring.len())?;
    fill(ring, corners.len(), NO_CORNER);
    Ok(State { passed: 0 })
}

// Refusals 1, 2, 3, 4, 7, 8, 10 and 11 of Step (STEP-6).
fn step_test(
    coords: &[i32],
    corners: &[u32],
    pairing: &[u32],
    order: &[u32],
    ring: &[u32],
    n: usize,
) -> Result<(), Refusal>
    ensures told { tell_verdict result ≡ verdict (step_tests
        (ordered coords.now corners.now pairing.now order.now)
        (length ring.now) n) }
{
    opening_test(coords, corners, pairing, true, true)?;
    state_test(coords, corners, pairing, order, ring, n)?;
    one_sweep_test(
        SweepTest::Length,
        coords,
        corners,
        pairing,
        order,
        ring,
        n,
        0,
    )
}

// Passes the next vertex of the order, and rewrites the entries of the corners paired into
// its triangles; gives no state if all were passed already (STEP-1 to STEP-10, FORM-7).
pub fn step(
    coords: &[i32],
    corners: &[u32],
    pairing: &[u32],
    order: &[u32],
    ring: &mut [u32],
    state: State,
) -> Result<Option<State>, Refusal>
    ensures outcome { Steps (sweep
        (ordered coords.now corners.now pairing.now order.now)
        ring.old state.passed) result ring.new }
{
    let n = state.passed;
    step_test(coords, corners, pairing, order, ring, n)?;
    if n == coords.len() / 3 {
        return Ok(None);
    }
    let w = order[n] as usize;
    let z = coords[3 * w + 2];
    relink(coords, corners, pairing, z, w + 1, w, ring);
    Ok(Some(State { passed: n + 1 }))
}
