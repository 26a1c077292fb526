// The lines of a listing and the layers of a mesh, written into an output that has room, as each `requires` says.
ghost use Rattle.std.specs.Prelude.{◌≡◌, ◌+◌, ◌≤◌, length};
ghost use Rattle.mesh.specs.Meshes.{paired};
ghost use Rattle.mesh.specs.Refusals.{told_of};
ghost use Rattle.section.specs.Section.{Right};
ghost use Rattle.cut.specs.Cut.{lent, lengths_of};
ghost use Rattle.contours.specs.Areas.{area_of};
ghost use Rattle.contours.specs.Contours.{contour_of};
ghost use Rattle.contours.specs.Runs.{PointRun};
ghost use Rattle.list_decimals.specs.Texts.{TextRoom, PutsText};
ghost use Rattle.list_lines.specs.Limits.{most_output};
ghost use Rattle.list_lines.specs.Lines.{refused_line, layers_line, layer_line, line_at, lines_of, listing};
ghost use Rattle.list_lines.specs.Steps.{most_line, most_refused, areas_in, Summable, Workable, PutsLine, Listable, FirstLine};

use all_heights::unchecked::taken_height;
use all_heights::{base_z, taken_count};
use contours::{area, contour};
use cut::unchecked::slice;
use list_decimals::unchecked_text::{write_decimal, write_signed, write_text};
use mesh::Refusal;
use mesh::refusals::{number_of, place_of};

// Writes the line of a refusal (LIST-4), and returns its length. All after it stays.
pub fn write_refusal(output: &mut [u8], r: Refusal) -> usize
    requires { most_refused ≤ length output.old }
    ensures outcome { PutsText output.old 0 (refused_line (told_of r)) result output.new }
{
    let n = number_of(r) as u64;
    let p = place_of(r) as u64;
    let a = write_text(output, 0, b"refused ");
    let b = write_decimal(output, a, n);
    let c = write_text(output, b, b" ");
    let d = write_decimal(output, c, p);
    write_text(output, d, b"\n")
}

// Writes the first line (LIST-7) at a position, and returns the
// position after it. All before and after stays, here and below.
fn write_layers_line(output: &mut [u8], at: usize, count: usize) -> usize
    requires { TextRoom output.old at (layers_line count) }
    ensures outcome { PutsText output.old at (layers_line count) result output.new }
{
    let a = write_text(output, at, b"layers ");
    let b = write_decimal(output, a, count as u64);
    write_text(output, b, b"\n")
}

// Writes the line of a layer (LIST-8).
fn write_layer_line(
    output: &mut [u8],
    at: usize,
    h: i32,
    contours: usize,
    points: usize,
    area: i64,
) -> usize
    requires { TextRoom output.old at (layer_line h contours points area) }
    ensures outcome { PutsText output.old at (layer_line h contours points area) result
        output.new }
{
    let a = write_text(output, at, b"layer ");
    let b = write_signed(output, a, h as i64);
    let c = write_text(output, b, b" ");
    let d = write_decimal(output, c, contours as u64);
    let e = write_text(output, d, b" ");
    let f = write_decimal(output, e, points as u64);
    let g = write_text(output, f, b" ");
    let i = write_signed(output, g, area);
    write_text(output, i, b"\n")
}

// A contour goes into Area as a part of the slice of points (FORM-6).
fn contour_area(points: &[i32], ends: &[u32], j: usize) -> i64
    requires { PointRun (contour_of points.now ends.now j) }
    ensures value { result ≡ area_of (contour_of points.now ends.now j) }
{
    area(contour(points, ends, j)).unwrap()
}

// The sum of the areas of the first j contours.
fn sum_areas(points: &[i32], ends: &[u32], j: usize) -> i64
    requires { Summable points.now ends.now j }
    ensures value { result ≡ areas_in points.now ends.now j }
{
    let mut sum: i64 = 0;
    for i in 0..j {
        sum += contour_area(points, ends, i);
    }
    sum
}

// Cuts at height h, and writes the line of that layer (LIST-6).
fn list_layer(
    coords: &[i32],
    corners: &[u32],
    pairing: &[u32],
    h: i32,
    names: &mut [u32],
    points: &mut [i32],
    ends: &mut [u32],
    marks: &mut [u32],
    output: &mut [u8],
    at: usize,
) -> usize
    requires fact_1 { Right (paired coords.now corners.now pairing.now) }
    requires fact_2 { Workable (length corners.now) (lengths_of (lent names.old points.old ends.old marks.old)) }
    requires fact_3 { at + most_line ≤ length output.old }
    ensures outcome { PutsLine output.old at
        (line_at (paired coords.now corners.now pairing.now) h) result output.new }
{
    let counts = slice(coords, corners, pairing, h, names, points, ends, marks).unwrap();
    let a = sum_areas(points, ends, counts.contours);
    write_layer_line(output, at, h, counts.contours, counts.points, a)
}

// Writes a line for each height taken.
fn list_lines(
    coords: &[i32],
    corners: &[u32],
    pairing: &[u32],
    heights: &[i32],
    names: &mut [u32],
    points: &mut [i32],
    ends: &mut [u32],
    marks: &mut [u32],
    output: &mut [u8],
    at: usize,
) -> usize
    requires fact_1 { Listable (paired coords.now corners.now pairing.now) heights.now }
    requires fact_2 { Workable (length corners.now) (lengths_of (lent names.old points.old ends.old marks.old)) }
    requires fact_3 { FirstLine output.old at }
    ensures outcome { PutsText output.old at
        (lines_of (paired coords.now corners.now pairing.now) heights.now) result
        output.new }
{
    let n = taken_count(coords, heights);
    let low = base_z(coords, heights);
    let mut p = at;
    for k in 0..n {
        let h = taken_height(low, heights, k);
        p = list_layer(
            coords, corners, pairing, h, names, points, ends, marks, output, p,
        );
    }
    p
}

// Writes the listing of a mesh: the first line, and a line for each height taken.
pub fn list_layers(
    coords: &[i32],
    corners: &[u32],
    pairing: &[u32],
    heights: &[i32],
    names: &mut [u32],
    points: &mut [i32],
    ends: &mut [u32],
    marks: &mut [u32],
    output: &mut [u8],
) -> usize
    requires fact_1 { Listable (paired coords.now corners.now pairing.now) heights.now }
    requires fact_2 { Workable (length corners.now) (lengths_of (lent names.old points.old ends.old marks.old)) }
    requires fact_3 { most_output ≤ length output.old }
    ensures outcome { PutsText output.old 0
        (listing (paired coords.now corners.now pairing.now) heights.now) result
        output.new }
{
    let n = taken_count(coords, heights);
    let p = write_layers_line(output, 0, n);
    list_lines(
        coords, corners, pairing, heights, names, points, ends, marks, output, p,
    )
}
