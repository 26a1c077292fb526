// Read part: a part file, read into three lent tables.
#![tactic(auto)]

ghost use Rattle.std.specs.Prelude.{◌≡◌};
ghost use Rattle.read_part.specs.Parts.{part, part_sizes, read_part_room_for, ReadsPart};

use crate::unchecked::{fill_corners, fill_signed, find_part};
use mesh::Refusal;

pub mod unchecked;

// How many vertices, triangles and heights a part has.
#[derive(Clone, Copy, Debug, PartialEq, Eq)]
pub struct PartCounts {
    pub vertices: usize,
    pub triangles: usize,
    pub heights: usize,
}

// Whether n coordinates, m corners and k heights have room in tables of these lengths (READPART-6).
#[tactic(auto, unfolding(crate::specs::Parts::read_part_room_for))]
fn read_part_room_for(
    n: usize,
    m: usize,
    k: usize,
    coords: usize,
    corners: usize,
    heights: usize,
) -> bool
    ensures value { result ≡ read_part_room_for (part_sizes n m k) (part_sizes coords corners heights) }
{
    n <= coords && m <= corners && k <= heights
}

// Reads a part file into the first entries of the lent tables (READPART-1 to READPART-7).
pub fn read_part(
    file: &[u8],
    coords: &mut [i32],
    corners: &mut [u32],
    heights: &mut [i32],
) -> Result<PartCounts, Refusal>
    ensures outcome { ReadsPart file.now
        (part coords.old corners.old heights.old) result
        (part coords.new corners.new heights.new) }
{
    let l = find_part(file)?;
    if !read_part_room_for(
        l.coords.count,
        l.corners.count,
        l.heights.count,
        coords.len(),
        corners.len(),
        heights.len(),
    ) {
        return Err(Refusal::Room(0));
    }
    fill_signed(file, l.coords, coords);
    fill_corners(file, l.corners, corners);
    fill_signed(file, l.heights, heights);
    Ok(PartCounts {
        vertices: l.coords.count / 3,
        triangles: l.corners.count / 3,
        heights: l.heights.count,
    })
}
