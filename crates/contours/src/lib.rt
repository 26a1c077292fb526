// Contours of a layer: where each lies in the table of points, and its area.
#![tactic(auto)]

ghost use Rattle.std.specs.Prelude.{◌≡◌, ◌<◌, length};
ghost use Rattle.mesh.specs.Operation.{test, verdict};
ghost use Rattle.mesh.specs.Refusals.{tell_verdict};
ghost use Rattle.contours.specs.Areas.{run_size, measuring, Measures};
ghost use Rattle.contours.specs.Contours.{first_of, span_of, contour_of};

use crate::unchecked::doubled_area;
use mesh::Refusal;
use mesh::tests::range_test;
use polygons::run_fits;
use polygons::unchecked::prior_end;

pub mod unchecked;

// Where a contour lies in a table of points: the position of its first number, 0 where it has none, and how many it has.
#[derive(Clone, Copy, Debug, PartialEq, Eq)]
pub struct ContourPart {
    pub first: usize,
    pub length: usize,
}

// Where contour j lies in a table of so many numbers.
pub fn contour_part(numbers: usize, ends: &[u32], j: usize) -> ContourPart
    ensures result { (result.first ≡ first_of numbers ends.now j)
        × (result.length ≡ span_of numbers ends.now j) }
{
    if j < ends.len() {
        let start = prior_end(ends, j);
        let end = ends[j] as usize;
        if start < end && 2 * end <= numbers {
            return ContourPart {
                first: 2 * start,
                length: 2 * (end - start),
            };
        }
    }
    ContourPart {
        first: 0,
        length: 0,
    }
}

// Contour j, a part of the points; the empty part where there is none (CONTOUR-1 to CONTOUR-5, FORM-5).
pub fn contour<'a>(points: &'a [i32], ends: &[u32], j: usize) -> &'a [i32]
    ensures value { result.now ≡ contour_of points.now ends.now j }
{
    let part = contour_part(points.len(), ends, j);
    let first = part.first;
    let end = first + part.length;
    &points[first..end]
}

// Refusal 1 (AREA-3).
fn run_test(points: &[i32]) -> Result<(), Refusal>
    ensures told { tell_verdict result ≡ test (run_size points.now) }
{
    if run_fits(points.len()) {
        return Ok(());
    }
    Err(Refusal::Size(0))
}

// Refusals 1 and 2 (AREA-2).
fn points_test(points: &[i32]) -> Result<(), Refusal>
    ensures told { tell_verdict result ≡ verdict (measuring points.now).refusals }
{
    run_test(points)?;
    range_test(points)
}

// The doubled signed area of a run of points, closed round, or why there is none (AREA-1 to AREA-4).
pub fn area(points: &[i32]) -> Result<i64, Refusal>
    ensures outcome { Measures points.now result }
{
    points_test(points)?;
    Ok(doubled_area(points))
}
