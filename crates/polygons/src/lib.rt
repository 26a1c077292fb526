// Layers as data: contours as lists of points, and the two tables that hold them (specs/). Here the tests of a layer that is handed in.
#![tactic(auto)]

ghost use Rattle.std.specs.Prelude.{◌≡◌, ◌&&◌, eqb};
ghost use Rattle.mesh.specs.Operation.{verdict};
ghost use Rattle.mesh.specs.Refusals.{tell_verdict};
ghost use Rattle.polygons.specs.Flat.{flat, run_fits, ends_rise, last_end, layer_tests};

use mesh::Refusal;
use mesh::limits::MOST_POINTS;
use mesh::tests::range_test;

pub mod unchecked;

// The contours of a layer and the points of all of them, counted.
#[derive(Clone, Copy, Debug, PartialEq, Eq)]
pub struct LayerCounts {
    pub contours: usize,
    pub points: usize,
}

// Whether so many numbers are points, and not too many (AREA-3, GIVEN-2).
pub fn run_fits(numbers: usize) -> bool
    ensures value { result ≡ run_fits numbers }
{
    numbers % 2 == 0 && numbers / 2 <= MOST_POINTS
}

// Whether the ends rise from 0 by two or more, and the last, 0 if there is none, is n (GIVEN-2).
fn ends_fit(ends: &[u32], n: usize) -> bool
    ensures value { result ≡ (ends_rise 0 ends.now && eqb (last_end 0 ends.now) n) }
{
    let mut a: usize = 0;
    for end in ends {
        let e = *end as usize;
        if e < a + 2 {
            return false;
        }
        a = e;
    }
    a == n
}

// Refusals 1 and 2 of a layer (GIVEN-2, GIVEN-3).
pub fn layer_test(points: &[i32], ends: &[u32]) -> Result<(), Refusal>
    ensures told { tell_verdict result ≡ verdict (layer_tests (flat points.now ends.now)) }
{
    if !run_fits(points.len()) || !ends_fit(ends, points.len() / 2) {
        return Err(Refusal::Size(0));
    }
    range_test(points)
}
