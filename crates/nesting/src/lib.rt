// Nesting: the depth and the parent of each contour of a layer, in two lent tables.
#![tactic(auto)]

ghost use Rattle.std.specs.Prelude.{◌≡◌};
ghost use Rattle.polygons.specs.Flat.{flat};
ghost use Rattle.nesting.specs.Nesting.{nest_room_for, nest_tables, FindsNesting};

use crate::unchecked::nest;
use mesh::Refusal;
use polygons::layer_test;

pub mod unchecked;

// Whether tables of these lengths have an entry for each contour.
fn nest_room_for(contours: usize, depths: usize, parents: usize) -> bool
    ensures value { result ≡ nest_room_for contours depths parents }
{
    contours <= depths && contours <= parents
}

// Tests a layer and the tables for it, then fills their first entries with depths and parents (NEST-8 to NEST-11).
pub fn nesting(
    points: &[i32],
    ends: &[u32],
    depths: &mut [u32],
    parents: &mut [u32],
) -> Result<(), Refusal>
    ensures outcome { FindsNesting (flat points.now ends.now)
        (nest_tables depths.old parents.old) result
        (nest_tables depths.new parents.new) }
{
    layer_test(points, ends)?;
    if !nest_room_for(ends.len(), depths.len(), parents.len()) {
        return Err(Refusal::Room(0));
    }
    nest(points, ends, depths, parents);
    Ok(())
}
