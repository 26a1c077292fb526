// A contour of a table of points, cleaned. Each `requires` says that the points and the room for them are there.
ghost use Rattle.std.specs.Prelude.{◌≡◌, ◌+◌, ◌*◌, ◌≤◌, ◌<◌};
ghost use Rattle.polygons.specs.Flat.{point};
ghost use Rattle.cleaning.specs.Cleaning.{same_point, kept};
ghost use Rattle.clean_contour.specs.Parts.{Has, point_in, is_either, contour_part, with_point, HasPoints, Found, Trimmed};
ghost use Rattle.clean_contour.specs.Parts.{CleanEnd, CleanRoom, without_repeats, remains, PointsStand};

use cleaning::same_point;

// Whether points i and j of a table are equal.
fn equal_points(points: &[i32], i: usize, j: usize) -> bool
    requires { Has points.now i × Has points.now j }
    ensures value { result ≡ same_point (point_in points.now i) (point_in points.now j) }
{
    let k = 2 * i;
    let l = 2 * j;
    let x = points[k];
    let y = points[k + 1];
    let u = points[l];
    let v = points[l + 1];
    same_point(x, y, u, v)
}

// Whether point i equals point a or point b.
fn is_either(points: &[i32], a: usize, b: usize, i: usize) -> bool
    requires { Has points.now a × Has points.now b × Has points.now i }
    ensures value { result ≡ is_either points.now a b i }
{
    equal_points(points, a, i) || equal_points(points, b, i)
}

// The first point from `from` on that is neither point a nor point b, or the end.
fn first_other(points: &[i32], from: usize, end: usize, a: usize, b: usize) -> usize
    requires fact_1 { HasPoints points.now end }
    requires fact_2 { (from ≤ end) × (a < end) × (b < end) }
    ensures found { Found points.now from end a b result }
{
    for i in from..end {
        if !is_either(points, a, b, i) {
            return i;
        }
    }
    end
}

// Whether a contour is kept: it has three different points (CLEAN-3).
fn is_kept(points: &[i32], from: usize, end: usize) -> bool
    requires fact_1 { HasPoints points.now end }
    requires fact_2 { from ≤ end }
    ensures value { result ≡ kept (contour_part points.now from end) }
{
    if from == end {
        return false;
    }
    let second = first_other(points, from + 1, end, from, from);
    if second == end {
        return false;
    }
    let third = first_other(points, second + 1, end, from, second);
    third < end
}

// The end of a contour without the points there that equal its first (CLEAN-2).
fn trimmed_end(points: &[i32], from: usize, end: usize) -> usize
    requires fact_1 { HasPoints points.now end }
    requires fact_2 { from < end }
    ensures found { Trimmed points.now from end result }
{
    for k in (from + 1..end).rev() {
        if !equal_points(points, from, k) {
            return k + 1;
        }
    }
    from + 1
}

// Where a contour ends once it is cleaned: `from` if it is dropped. What is left to drop are points that equal the one before.
fn clean_end(points: &[i32], from: usize, end: usize) -> usize
    requires fact_1 { HasPoints points.now end }
    requires fact_2 { from ≤ end }
    ensures found { CleanEnd points.now from end result }
{
    if !is_kept(points, from, end) {
        return from;
    }
    trimmed_end(points, from, end)
}

// Writes point i of a table.
fn write_point(points: &mut [i32], i: usize, x: i32, y: i32)
    requires { Has points.old i }
    ensures outcome { points.new ≡ with_point points.old i (point x y) }
{
    let k = 2 * i;
    points[k] = x;
    points[k + 1] = y;
}

// Copies points to another table, from point `at` on, without those that equal the one before (CLEAN-1), and returns the point after them.
fn copy_run(points: &[i32], from: usize, end: usize, table: &mut [i32], at: usize) -> usize
    requires fact_1 { CleanRoom points.now table.old from end at }
    requires fact_2 { from < end }
    ensures outcome { PointsStand (without_repeats (contour_part points.now from end)) table.old at result
        table.new }
{
    let first = 2 * from;
    let mut x = points[first];
    let mut y = points[first + 1];
    write_point(table, at, x, y);
    let mut to = at + 1;
    for i in from + 1..end {
        let k = 2 * i;
        let u = points[k];
        let v = points[k + 1];
        if !same_point(x, y, u, v) {
            write_point(table, to, u, v);
            to += 1;
            x = u;
            y = v;
        }
    }
    to
}

// The same within one table. What is read and what is written are there one borrow, and for `copy_run` two: a form for both would be no plainer than each.
fn move_run(points: &mut [i32], from: usize, end: usize, at: usize) -> usize
    requires fact_1 { CleanRoom points.old points.old from end at }
    requires fact_2 { from < end }
    ensures outcome { PointsStand (without_repeats (contour_part points.old from end)) points.old at result
        points.new }
{
    let first = 2 * from;
    let mut x = points[first];
    let mut y = points[first + 1];
    write_point(points, at, x, y);
    let mut to = at + 1;
    for i in from + 1..end {
        let k = 2 * i;
        let u = points[k];
        let v = points[k + 1];
        if !same_point(x, y, u, v) {
            write_point(points, to, u, v);
            to += 1;
            x = u;
            y = v;
        }
    }
    to
}

// Cleans a contour into another table, from point `at` on, and returns the point after it: `at` if it is dropped.
pub fn copy_contour(points: &[i32], from: usize, end: usize, table: &mut [i32], at: usize) -> usize
    requires fact_1 { CleanRoom points.now table.old from end at }
    requires fact_2 { from ≤ end }
    ensures outcome { PointsStand (remains (contour_part points.now from end)) table.old at result
        table.new }
{
    let last = clean_end(points, from, end);
    if last == from {
        return at;
    }
    copy_run(points, from, last, table, at)
}

// The same within one table.
pub fn move_contour(points: &mut [i32], from: usize, end: usize, at: usize) -> usize
    requires fact_1 { CleanRoom points.old points.old from end at }
    requires fact_2 { from ≤ end }
    ensures outcome { PointsStand (remains (contour_part points.old from end)) points.old at result
        points.new }
{
    let last = clean_end(points, from, end);
    if last == from {
        return at;
    }
    move_run(points, from, last, at)
}
