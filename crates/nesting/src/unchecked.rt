// Of layers that the tests have passed: what each contour adds to the depths and parents of the others.
ghost use Rattle.std.specs.Prelude.{◌≡◌, not, ◌&&◌, ◌≤◌, ◌<◌, eqb, length};
ghost use Rattle.polygons.specs.Flat.{point, PointNear, flat, points_in, polygons_of};
ghost use Rattle.polygons.specs.TestedLayers.{LayerTested};
ghost use Rattle.contours.specs.Runs.{PointRun};
ghost use Rattle.inside.specs.Inside.{lies_in};
ghost use Rattle.inside.specs.Extents.{Spans};
ghost use Rattle.nesting.specs.Nesting.{nest_tables, nested};
ghost use Rattle.nesting.specs.Steps.{closer, met_by, all_met_by, ParentTo, NestEntries, Holder, Meeting};

use contours::contour;
use inside::ContourExtent;
use inside::unchecked::{absolute_area, extent_of, lies_within};
use mesh::unchecked::fill;

// What is written where there is no parent.
const NO_PARENT: u32 = u32::MAX;

// Whether a contour of this size is to be the parent instead of q. The area of q is found again: no table keeps it.
fn is_closer(points: &[i32], ends: &[u32], size: u64, q: u32) -> bool
    requires { LayerTested (flat points.now ends.now) × ParentTo (length ends.now) q }
    ensures value { result ≡ closer (polygons_of (flat points.now ends.now)) size q }
{
    q == NO_PARENT || size < absolute_area(contour(points, ends, q as usize))
}

// What contour j of this size adds to the depth and the parent of contour i, which it holds or not.
fn meet_one(
    points: &[i32],
    ends: &[u32],
    size: u64,
    j: usize,
    i: usize,
    inside: bool,
    depths: &mut [u32],
    parents: &mut [u32],
)
    requires { Meeting (flat points.now ends.now) size j i inside (nest_tables depths.old parents.old) }
    ensures left { nest_tables depths.new parents.new
        ≡ met_by (polygons_of (flat points.now ends.now)) j i
        (nest_tables depths.old parents.old) }
{
    if !inside {
        return;
    }
    depths[i] += 1;
    if is_closer(points, ends, size, parents[i]) {
        parents[i] = j as u32;
    }
}

// Whether contour j, of this extent, holds contour i, whose first point is (x, y).
fn is_held(contour: &[i32], e: ContourExtent, x: i32, y: i32, j: usize, i: usize) -> bool
    requires { PointRun contour.now × (0 < length contour.now) × PointNear (point x y) × Spans (points_in contour.now) e }
    ensures value { result ≡ (not (eqb j i) && lies_in (point x y) (points_in contour.now)) }
{
    j != i && lies_within(contour, e, x, y)
}

// What contour j, with its extent and its size, adds to the depths and parents of all.
fn meet_all(
    points: &[i32],
    ends: &[u32],
    contour: &[i32],
    e: ContourExtent,
    size: u64,
    j: usize,
    depths: &mut [u32],
    parents: &mut [u32],
)
    requires { Holder (flat points.now ends.now) contour.now e size j
        × NestEntries (length ends.now) j (nest_tables depths.old parents.old) }
    ensures left { nest_tables depths.new parents.new
        ≡ all_met_by (polygons_of (flat points.now ends.now)) j
        (nest_tables depths.old parents.old) }
{
    let mut start: usize = 0;
    for (i, end) in ends.iter().enumerate() {
        let a = 2 * start;
        let x = points[a];
        let y = points[a + 1];
        let inside = is_held(contour, e, x, y, j, i);
        meet_one(points, ends, size, j, i, inside, depths, parents);
        start = *end as usize;
    }
}

// The same of contour j alone: its extent and its size are found once.
fn nest_contour(points: &[i32], ends: &[u32], j: usize, depths: &mut [u32], parents: &mut [u32])
    requires { LayerTested (flat points.now ends.now) × (j < length ends.now)
        × NestEntries (length ends.now) j (nest_tables depths.old parents.old) }
    ensures left { nest_tables depths.new parents.new
        ≡ all_met_by (polygons_of (flat points.now ends.now)) j
        (nest_tables depths.old parents.old) }
{
    let c = contour(points, ends, j);
    let e = extent_of(c);
    let size = absolute_area(c);
    meet_all(points, ends, c, e, size, j, depths, parents);
}

// Depth and parent of each contour.
pub fn nest(points: &[i32], ends: &[u32], depths: &mut [u32], parents: &mut [u32])
    requires { LayerTested (flat points.now ends.now) × (length ends.now ≤ length depths.old)
        × (length ends.now ≤ length parents.old) }
    ensures left { nest_tables depths.new parents.new
        ≡ nested (polygons_of (flat points.now ends.now))
        (nest_tables depths.old parents.old) }
{
    let n = ends.len();
    fill(depths, n, 0);
    fill(parents, n, NO_PARENT);
    for j in 0..n {
        nest_contour(points, ends, j, depths, parents);
    }
}
