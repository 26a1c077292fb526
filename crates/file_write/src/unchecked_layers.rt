// Measuring and writing a layer that lies in a table of points and a table of ends, as each `requires` says.
ghost use Rattle.std.specs.Prelude.{◌≡◌, ◌+◌, ◌*◌, ◌≤◌, length, take};
ghost use mathlib.Core.List.{flat_map};
ghost use Rattle.file_write.specs.LayerTables.{LayerTables};
ghost use Rattle.file_write.specs.Written.{points_in, contours_in, layer_of, point_bytes, contour_bytes, layer_bytes, HasRoom, Puts};

use file_formats::numbers::{difference, number_length, unsigned_of};
use file_formats::unchecked::write_number;

// How many bytes the points of a contour take, at most five for each number.
fn points_length(points: &[i32]) -> usize
    ensures result { (result ≡ length (point_bytes (points_in points.now)))
        × (result ≤ 5 * length points.now) }
{
    let mut x: i32 = 0;
    let mut y: i32 = 0;
    let mut total: usize = 0;
    for k in 0..points.len() / 2 {
        let nx = points[2 * k];
        let ny = points[2 * k + 1];
        total += number_length(difference(nx, x)) + number_length(difference(ny, y));
        x = nx;
        y = ny;
    }
    total
}

// How many bytes a contour takes.
fn contour_length(points: &[i32]) -> usize
    ensures result { (result ≡ length (contour_bytes (points_in points.now)))
        × (result ≤ 1 + 6 * length points.now) }
{
    number_length((points.len() / 2) as u64) + points_length(points)
}

// How many bytes the contours of a layer take.
fn contours_length(points: &[i32], ends: &[u32], j: usize) -> usize
    requires { LayerTables points.now ends.now j }
    ensures result { (result ≡ length (flat_map contour_bytes (contours_in points.now 0 (take j ends.now))))
        × (result ≤ j + 6 * length points.now) }
{
    let mut total: usize = 0;
    let mut from: usize = 0;
    for end in &ends[..j] {
        let end = *end as usize;
        total += contour_length(&points[2 * from..2 * end]);
        from = end;
    }
    total
}

// How many bytes the layer of height h and of j contours takes.
pub fn layer_length(h: i32, points: &[i32], ends: &[u32], j: usize) -> usize
    requires { LayerTables points.now ends.now j }
    ensures value { result ≡ length (layer_bytes (layer_of h points.now ends.now j)) }
{
    number_length(unsigned_of(i64::from(h)))
        + number_length(j as u64)
        + contours_length(points, ends, j)
}

// Writes the points of a contour at a position, and returns the position after them. All before and after stays, here and below.
fn write_points(points: &[i32], output: &mut [u8], at: usize) -> usize
    requires { HasRoom output.old at (point_bytes (points_in points.now)) }
    ensures outcome { Puts output.old at (point_bytes (points_in points.now)) result
        output.new }
{
    let count = points.len() / 2;
    let mut x: i32 = 0;
    let mut y: i32 = 0;
    let mut p = at;
    for k in 0..count {
        let nx = points[2 * k];
        let ny = points[2 * k + 1];
        let dx = difference(nx, x);
        let dy = difference(ny, y);
        let q = write_number(output, p, dx);
        p = write_number(output, q, dy);
        x = nx;
        y = ny;
    }
    p
}

fn write_contour(points: &[i32], output: &mut [u8], at: usize) -> usize
    requires { HasRoom output.old at (contour_bytes (points_in points.now)) }
    ensures outcome { Puts output.old at (contour_bytes (points_in points.now)) result
        output.new }
{
    let p = write_number(output, at, (points.len() / 2) as u64);
    write_points(points, output, p)
}

fn write_contours(points: &[i32], ends: &[u32], j: usize, output: &mut [u8], at: usize) -> usize
    requires fact_1 { LayerTables points.now ends.now j }
    requires fact_2 { HasRoom output.old at (flat_map contour_bytes (contours_in points.now 0 (take j ends.now))) }
    ensures outcome { Puts output.old at
        (flat_map contour_bytes (contours_in points.now 0 (take j ends.now))) result
        output.new }
{
    let mut p = at;
    let mut from: usize = 0;
    for end in &ends[..j] {
        let end = *end as usize;
        p = write_contour(&points[2 * from..2 * end], output, p);
        from = end;
    }
    p
}

// Writes the layer of height h and of j contours.
pub fn write_layer(
    h: i32,
    points: &[i32],
    ends: &[u32],
    j: usize,
    output: &mut [u8],
    at: usize,
) -> usize
    requires fact_1 { LayerTables points.now ends.now j }
    requires fact_2 { HasRoom output.old at (layer_bytes (layer_of h points.now ends.now j)) }
    ensures outcome { Puts output.old at
        (layer_bytes (layer_of h points.now ends.now j)) result output.new }
{
    let p = write_number(output, at, unsigned_of(i64::from(h)));
    let q = write_number(output, p, j as u64);
    write_contours(points, ends, j, output, q)
}
