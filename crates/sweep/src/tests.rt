// The tests of a sweep that ask nothing of their caller.
ghost use Rattle.std.specs.Prelude.{◌≡◌, length};
ghost use Rattle.mesh.specs.Operation.{test, verdict};
ghost use Rattle.mesh.specs.Refusals.{tell_verdict};
ghost use Rattle.sweep.specs.Operations.{too_many, short_ring, state_tests};

use crate::SweepTest;
use crate::unchecked_tests::one_sweep_test;
use mesh::Refusal;
use mesh_tables::MeshTest;

// Refusal 10 (STEP-8).
pub fn passed_test(coords: &[i32], n: usize) -> Result<(), Refusal>
    ensures told { tell_verdict result ≡ test (too_many coords.now n) }
{
    if coords.len() / 3 < n {
        return Err(Refusal::Passed(0));
    }
    Ok(())
}

// Refusal 11 of Step (STEP-9).
pub fn length_test(corners: &[u32], ring: &[u32]) -> Result<(), Refusal>
    ensures told { tell_verdict result ≡ test (short_ring corners.now (length ring.now)) }
{
    if ring.len() < corners.len() {
        return Err(Refusal::Ring(ring.len()));
    }
    Ok(())
}

// Refusals 8 and 10.
pub fn state_test(
    coords: &[i32],
    corners: &[u32],
    pairing: &[u32],
    order: &[u32],
    ring: &[u32],
    n: usize,
) -> Result<(), Refusal>
    ensures told { tell_verdict result ≡ verdict (state_tests coords.now order.now n) }
{
    one_sweep_test(
        SweepTest::Mesh(MeshTest::Order),
        coords,
        corners,
        pairing,
        order,
        ring,
        n,
        0,
    )?;
    one_sweep_test(
        SweepTest::Passed,
        coords,
        corners,
        pairing,
        order,
        ring,
        n,
        0,
    )
}
