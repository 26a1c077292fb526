// The tests that every operation on a mesh with a pairing begins with. A table may be a part of a longer one.
ghost use Rattle.std.specs.Prelude.{◌≡◌};
ghost use Rattle.mesh.specs.Meshes.{paired};
ghost use Rattle.mesh.specs.Operation.{verdict};
ghost use Rattle.mesh.specs.Refusals.{tell_verdict};
ghost use Rattle.mesh_tables.specs.MeshTests.{opening_tests};

use crate::MeshTest;
use crate::unchecked_tests::{content_test, one_mesh_test};
use mesh::Refusal;

// Refusals 1, 9, 2, 3, 4 and 7: 1 also unless `few`, 9 unless `room`.
pub fn opening_test(
    coords: &[i32],
    corners: &[u32],
    pairing: &[u32],
    few: bool,
    room: bool,
) -> Result<(), Refusal>
    ensures told { tell_verdict result
        ≡ verdict (opening_tests (paired coords.now corners.now pairing.now) few room) }
{
    one_mesh_test(MeshTest::Size, coords, corners, pairing, pairing)?;
    if !few {
        return Err(Refusal::Size(0));
    }
    if !room {
        return Err(Refusal::Room(0));
    }
    content_test(coords, corners, pairing)
}
