// The refusals of an input and its part, and the program with its tables lent.
ghost use Rattle.std.specs.Prelude.{◌≡◌, ◌≤◌, length};
ghost use Rattle.mesh.specs.Refusals.{told_of, tell_verdict};
ghost use Rattle.cut.specs.Cut.{lent, lengths_of};
ghost use Rattle.list_decimals.specs.Texts.{PutsText};
ghost use Rattle.read_part.specs.Parts.{part, part_sizes_of};
ghost use Rattle.list_lines.specs.Limits.{most_output, held_entries};
ghost use Rattle.list_part.specs.Listing.{listed};
ghost use Rattle.list_part.specs.Listing.{beyond as Listing·beyond};
ghost use Rattle.list_part.specs.Steps.{held_sizes, ListingTables, PartTested, part_listed, Takes};
ghost use Rattle.list_part.specs.Steps.{limited as Steps·limited};

use all_heights::{heights_test, taken_count};
use check_mesh::check;
use list_lines::unchecked_lines::{list_layers, write_refusal};
use mesh::Refusal;
use mesh::refusals::number_of;
use read_part::{PartCounts, read_part};

// What the program takes (LIMIT-11) and holds (LIMIT-8 to LIMIT-10).
const MOST_INPUT: usize = 8192;

const HELD_VERTICES: usize = 128;

const HELD_TRIANGLES: usize = 256;

const HELD_HEIGHTS: usize = 256;

// Whether a part is beyond what the program holds (LIST-2).
#[tactic(auto, unfolding(crate::specs::Listing::beyond))]
fn beyond(coords: &[i32], corners: &[u32], heights: &[i32]) -> bool
    ensures value { result ≡ Listing·beyond
        (part coords.now corners.now heights.now) }
{
    HELD_VERTICES < coords.len() / 3
        || HELD_TRIANGLES < corners.len() / 3
        || HELD_HEIGHTS < taken_count(coords, heights)
}

// The refusals of a part: the limits, the check, and 12 (LIST-5). Where there is none the pairing is made.
fn part_test(
    coords: &[i32],
    corners: &[u32],
    heights: &[i32],
    pairing: &mut [u32],
    order: &mut [u32],
) -> Result<(), Refusal>
    requires { (length pairing.old ≡ held_entries) × (length order.old ≡ held_entries) }
    ensures outcome { PartTested (part coords.now corners.now heights.now)
        pairing.old (tell_verdict result) pairing.new }
{
    if beyond(coords, corners, heights) {
        return Err(Refusal::Size(0));
    }
    check(coords, corners, pairing, order)?;
    heights_test(heights)
}

// Writes the listing of a part, or its refusal.
fn list_part(
    coords: &[i32],
    corners: &[u32],
    heights: &[i32],
    pairing: &mut [u32],
    order: &mut [u32],
    names: &mut [u32],
    points: &mut [i32],
    ends: &mut [u32],
    marks: &mut [u32],
    output: &mut [u8],
) -> usize
    requires fact_1 { ListingTables (length pairing.old) (length order.old)
        (lengths_of (lent names.old points.old ends.old marks.old)) }
    requires fact_2 { most_output ≤ length output.old }
    ensures outcome { PutsText output.old 0
        (part_listed (part coords.now corners.now heights.now)) result output.new }
{
    if let Err(r) = part_test(coords, corners, heights, pairing, order) {
        return write_refusal(output, r);
    }
    let n = corners.len();
    list_layers(
        coords,
        corners,
        &pairing[..n],
        heights,
        names,
        points,
        ends,
        marks,
        output,
    )
}

// The refusal of a part that Read part refuses: 9 means that it is beyond the limits, and is 1 here (LIST-3).
fn limited(r: Refusal) -> Refusal
    ensures result { told_of result ≡ Steps·limited (told_of r) }
{
    if number_of(r) == 9 {
        return Refusal::Size(0);
    }
    r
}

// Reads a part into the front of three tables.
fn take_part(
    input: &[u8],
    coords: &mut [i32],
    corners: &mut [u32],
    heights: &mut [i32],
) -> Result<PartCounts, Refusal>
    requires { part_sizes_of (part coords.old corners.old heights.old) ≡ held_sizes }
    ensures outcome { Takes input.now result
        (part coords.new corners.new heights.new) }
{
    if MOST_INPUT < input.len() {
        return Err(Refusal::Size(0));
    }
    read_part(input, coords, corners, heights).map_err(limited)
}

// Writes what the program writes for an input, with tables of so many entries.
pub fn list_with(
    input: &[u8],
    coords: &mut [i32],
    corners: &mut [u32],
    heights: &mut [i32],
    pairing: &mut [u32],
    order: &mut [u32],
    names: &mut [u32],
    points: &mut [i32],
    ends: &mut [u32],
    marks: &mut [u32],
    output: &mut [u8],
) -> usize
    requires fact_1 { part_sizes_of (part coords.old corners.old heights.old) ≡ held_sizes }
    requires fact_2 { ListingTables (length pairing.old) (length order.old)
        (lengths_of (lent names.old points.old ends.old marks.old)) }
    requires fact_3 { most_output ≤ length output.old }
    ensures outcome { PutsText output.old 0 (listed input.now) result output.new }
{
    match take_part(input, coords, corners, heights) {
        Ok(counts) => {
            let n = 3 * counts.vertices;
            let m = 3 * counts.triangles;
            list_part(
                &coords[..n],
                &corners[..m],
                &heights[..counts.heights],
                pairing,
                order,
                names,
                points,
                ends,
                marks,
                output,
            )
        }
        Err(r) => write_refusal(output, r),
    }
}
