// Cut: the layer of a mesh at a height.
#![tactic(auto)]

ghost use Rattle.std.specs.Prelude.{◌≡◌};
ghost use Rattle.mesh.specs.Meshes.{paired};
ghost use Rattle.mesh.specs.Operation.{verdict};
ghost use Rattle.mesh.specs.Refusals.{tell_verdict};
ghost use Rattle.cut.specs.Cut.{lent, lengths, cut_room_for, cut_tests, Cuts};

use crate::unchecked::slice;
use mesh::Refusal;
use mesh_tables::tests::opening_test;
use polygons::LayerCounts;

pub mod unchecked;

// Whether tables of these lengths hold the layer of n corners (CUT-9).
pub fn cut_room_for(n: usize, names: usize, points: usize, ends: usize, marks: usize) -> bool
    ensures value { result ≡ cut_room_for n (lengths names points ends marks) }
{
    n <= names && n <= points / 2 && n <= ends && n <= marks
}

// Refusals 1, 9, 2, 3, 4 and 7, for lent tables of these lengths (CUT-8).
pub fn tables_test(
    coords: &[i32],
    corners: &[u32],
    pairing: &[u32],
    names: usize,
    points: usize,
    ends: usize,
    marks: usize,
) -> Result<(), Refusal>
    ensures told { tell_verdict result ≡ verdict (cut_tests
        (paired coords.now corners.now pairing.now)
        (lengths names points ends marks)) }
{
    let room = cut_room_for(corners.len(), names, points, ends, marks);
    opening_test(coords, corners, pairing, true, room)
}

// Cuts a mesh at height h: names, points and ends of its contours, and how many there are (CUT-1 to CUT-13).
pub fn cut(
    coords: &[i32],
    corners: &[u32],
    pairing: &[u32],
    h: i32,
    names: &mut [u32],
    points: &mut [i32],
    ends: &mut [u32],
    marks: &mut [u32],
) -> Result<LayerCounts, Refusal>
    ensures outcome { Cuts (paired coords.now corners.now pairing.now) h
        (lent names.old points.old ends.old marks.old) result
        (lent names.new points.new ends.new marks.new) }
{
    tables_test(
        coords,
        corners,
        pairing,
        names.len(),
        points.len(),
        ends.len(),
        marks.len(),
    )?;
    slice(coords, corners, pairing, h, names, points, ends, marks)
}
