// The tests of a sweep one by one, each for tables that those before it passed. A table may be a part of a longer one.
ghost use Rattle.std.specs.Prelude.{◌≡◌};
ghost use Rattle.mesh.specs.Meshes.{ordered};
ghost use Rattle.mesh.specs.Operation.{test};
ghost use Rattle.mesh.specs.Refusals.{tell_verdict};
ghost use Rattle.sweep.specs.Sweep.{sweep};
ghost use Rattle.sweep.specs.SweepTests.{sweep_condition, SweepAskable};

use crate::SweepTest;
use crate::tests::{length_test, passed_test};
use crate::unchecked::{height_test, ring_test};
use mesh::Refusal;

// One test of a rise to h, by name.
pub fn one_sweep_test(
    which: SweepTest,
    coords: &[i32],
    corners: &[u32],
    pairing: &[u32],
    order: &[u32],
    ring: &[u32],
    n: usize,
    h: i32,
) -> Result<(), Refusal>
    requires { SweepAskable which
        (sweep (ordered coords.now corners.now pairing.now order.now) ring.now n) }
    ensures told { tell_verdict result ≡ test (sweep_condition which
        (sweep
        (ordered coords.now corners.now pairing.now order.now)
        ring.now n)
        h) }
{
    match which {
        SweepTest::Mesh(k) => mesh_tables::unchecked_tests::one_mesh_test(
            k, coords, corners, pairing, order,
        ),
        SweepTest::Passed => passed_test(coords, n),
        SweepTest::Length => length_test(corners, ring),
        SweepTest::Ring => ring_test(coords, corners, pairing, order, ring, n),
        SweepTest::Height => height_test(coords, order, n, h),
    }
}
