// The tests of a mesh one by one, for tables whose sizes are tested. A table may be a part of a longer one.
ghost use Rattle.std.specs.Prelude.{◌≡◌, length};
ghost use Rattle.mesh.specs.Meshes.{paired, ordered};
ghost use Rattle.mesh.specs.Operation.{test, verdict};
ghost use Rattle.mesh.specs.Refusals.{tell_verdict};
ghost use Rattle.mesh.specs.Tests.{WholeTriangles};
ghost use Rattle.mesh_tables.specs.MeshTests.{mesh_condition, MeshAskable, content_tests};

use crate::MeshTest;
use crate::ordering::order_test;
use crate::unchecked_pairing::pairing_test;
use mesh::Refusal;
use mesh::tests::{range_test, size_test, triangle_test, vertex_test};

// One test, by name.
pub fn one_mesh_test(
    which: MeshTest,
    coords: &[i32],
    corners: &[u32],
    pairing: &[u32],
    order: &[u32],
) -> Result<(), Refusal>
    requires { MeshAskable which (length corners.now) }
    ensures told { tell_verdict result ≡ test (mesh_condition which
        (ordered coords.now corners.now pairing.now order.now)) }
{
    match which {
        MeshTest::Size => size_test(coords, corners),
        MeshTest::Range => range_test(coords),
        MeshTest::Vertex => vertex_test(coords.len() / 3, corners),
        MeshTest::Triangle => triangle_test(corners),
        MeshTest::Pairing => pairing_test(corners, pairing),
        MeshTest::Order => order_test(coords, order),
    }
}

// Refusals 2, 3, 4 and 7.
pub fn content_test(coords: &[i32], corners: &[u32], pairing: &[u32]) -> Result<(), Refusal>
    requires { WholeTriangles (length corners.now) }
    ensures told { tell_verdict result ≡ verdict
        (content_tests (paired coords.now corners.now pairing.now)) }
{
    one_mesh_test(MeshTest::Range, coords, corners, pairing, pairing)?;
    one_mesh_test(MeshTest::Vertex, coords, corners, pairing, pairing)?;
    one_mesh_test(MeshTest::Triangle, coords, corners, pairing, pairing)?;
    one_mesh_test(MeshTest::Pairing, coords, corners, pairing, pairing)
}
