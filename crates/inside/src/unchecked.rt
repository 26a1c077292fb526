// Of points and contours that the tests of a layer have passed: whether a point lies in a contour, a contour's extent and its absolute area.
ghost use Rattle.std.specs.Prelude.{◌≡◌, ◌<◌, length, nat_abs};
ghost use Rattle.polygons.specs.Flat.{point, PointNear, points_in};
ghost use Rattle.polygons.specs.ContourAreas.{contour_area};
ghost use Rattle.contours.specs.Runs.{PointRun};
ghost use Rattle.inside.specs.Inside.{meets_right, counts_for, lies_in};
ghost use Rattle.inside.specs.Extents.{Spans, within};

use crate::ContourExtent;
use contours::unchecked::doubled_area;

// Whether the edge from (ax, ay), not above the level of (x, y), to (bx, by), above it, meets that level right of (x, y):
// both sides less ax times the height of the edge. Each product is below 2 ^ 43.
fn meets_right(x: i32, y: i32, ax: i32, ay: i32, bx: i32, by: i32) -> bool
    requires { PointNear (point x y) × PointNear (point ax ay) × PointNear (point bx by) }
    ensures value { result ≡ meets_right (point x y) (point ax ay) (point bx by) }
{
    let up = i64::from(by) - i64::from(ay);
    let over = i64::from(bx) - i64::from(ax);
    let rest = i64::from(y) - i64::from(ay);
    let right = i64::from(x) - i64::from(ax);
    right * up < over * rest
}

// Whether the edge between (ax, ay) and (bx, by) counts for (x, y).
fn edge_counts(x: i32, y: i32, ax: i32, ay: i32, bx: i32, by: i32) -> bool
    requires { PointNear (point x y) × PointNear (point ax ay) × PointNear (point bx by) }
    ensures value { result ≡ counts_for (point x y) (point ax ay) (point bx by) }
{
    match (ay <= y, by <= y) {
        (true, false) => meets_right(x, y, ax, ay, bx, by),
        (false, true) => meets_right(x, y, bx, by, ax, ay),
        _ => false,
    }
}

// Whether (x, y) lies in a contour.
fn lies_in(contour: &[i32], x: i32, y: i32) -> bool
    requires { PointRun contour.now × (0 < length contour.now) × PointNear (point x y) }
    ensures value { result ≡ lies_in (point x y) (points_in contour.now) }
{
    let ax0 = contour[0];
    let ay0 = contour[1];
    let mut ax = ax0;
    let mut ay = ay0;
    let mut n: usize = 0;
    for k in 1..contour.len() / 2 {
        let bx = contour[2 * k];
        let by = contour[2 * k + 1];
        n += usize::from(edge_counts(x, y, ax, ay, bx, by));
        ax = bx;
        ay = by;
    }
    n += usize::from(edge_counts(x, y, ax, ay, ax0, ay0));
    n % 2 == 1
}

// The extent of a contour.
pub fn extent_of(contour: &[i32]) -> ContourExtent
    requires { PointRun contour.now × (0 < length contour.now) }
    ensures value { Spans (points_in contour.now) result }
{
    let x0 = contour[0];
    let y0 = contour[1];
    let mut left = x0;
    let mut right = x0;
    let mut low = y0;
    let mut high = y0;
    for k in 1..contour.len() / 2 {
        let x = contour[2 * k];
        let y = contour[2 * k + 1];
        left = left.min(x);
        right = right.max(x);
        low = low.min(y);
        high = high.max(y);
    }
    ContourExtent {
        left,
        right,
        low,
        high,
    }
}

// Whether (x, y) is within an extent.
fn is_within(e: ContourExtent, x: i32, y: i32) -> bool
    ensures value { result ≡ within e (point x y) }
{
    (e.left..e.right).contains(&x) && (e.low..e.high).contains(&y)
}

// Whether (x, y) lies in a contour of this extent: most points are told by the extent alone.
pub fn lies_within(contour: &[i32], e: ContourExtent, x: i32, y: i32) -> bool
    requires { PointRun contour.now × (0 < length contour.now) × PointNear (point x y) × Spans (points_in contour.now) e }
    ensures value { result ≡ lies_in (point x y) (points_in contour.now) }
{
    is_within(e, x, y) && lies_in(contour, x, y)
}

// The absolute area of a contour, doubled.
pub fn absolute_area(contour: &[i32]) -> u64
    requires { PointRun contour.now }
    ensures value { result ≡ nat_abs (contour_area (points_in contour.now)) }
{
    doubled_area(contour).unsigned_abs()
}
