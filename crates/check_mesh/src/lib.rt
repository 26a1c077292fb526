// Check: whether a mesh is closed, with its pairing and its order.
#![tactic(auto)]

ghost use Rattle.std.specs.Prelude.{◌≡◌};
ghost use Rattle.mesh.specs.Meshes.{mesh};
ghost use Rattle.mesh.specs.Operation.{test, verdict};
ghost use Rattle.mesh.specs.Refusals.{tell_verdict};
ghost use Rattle.check_mesh.specs.Check.{check_tables, check_room_for, check_room, check_tests, Checks};

use check_order::unchecked_sort::order_vertices;
use check_pairing::unchecked_pairs::pair_corners;
use mesh::Refusal;
use mesh::tests::{mesh_test, size_test};
use mesh::unchecked::fill;

// Whether tables of these lengths have an entry for each corner and each vertex.
fn check_room_for(corners: usize, vertices: usize, pairing: usize, order: usize) -> bool
    ensures value { result ≡ check_room_for corners vertices pairing order }
{
    corners <= pairing && vertices <= order
}

// Refusal 9 (CHECK-6).
fn room_test(corners: usize, vertices: usize, pairing: usize, order: usize) -> Result<(), Refusal>
    ensures told { tell_verdict result ≡ test (check_room corners vertices pairing order) }
{
    if check_room_for(corners, vertices, pairing, order) {
        return Ok(());
    }
    Err(Refusal::Room(0))
}

// Refusals 1, 9, 2, 3 and 4, for lent tables of these lengths (CHECK-4).
fn table_test(coords: &[i32], corners: &[u32], pairing: usize, order: usize) -> Result<(), Refusal>
    ensures told { tell_verdict result ≡ verdict
        (check_tests (mesh coords.now corners.now) pairing order) }
{
    size_test(coords, corners)?;
    room_test(corners.len(), coords.len() / 3, pairing, order)?;
    mesh_test(coords, corners)
}

// Tests a mesh, and writes its pairing and its order into the first entries of the lent tables (CHECK-1 to CHECK-13).
pub fn check(
    coords: &[i32],
    corners: &[u32],
    pairing: &mut [u32],
    order: &mut [u32],
) -> Result<(), Refusal>
    ensures outcome { Checks (mesh coords.now corners.now)
        (check_tables pairing.old order.old) result
        (check_tables pairing.new order.new) }
{
    table_test(coords, corners, pairing.len(), order.len())?;
    let vertices = coords.len() / 3;
    if let Err(refusal) = pair_corners(corners, vertices, pairing, order) {
        fill(pairing, corners.len(), 0);
        fill(order, vertices, 0);
        return Err(refusal);
    }
    order_vertices(coords, order);
    Ok(())
}
