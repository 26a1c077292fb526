// The doubled area of a contour, added up point by point as they are read.
#![tactic(auto)]

ghost use Rattle.std.specs.Prelude.{◌≡◌};
ghost use Rattle.area_sum.specs.Summing.{unsummed};

pub mod unchecked;

// What the points of a contour have come to so far: the trapezoids along the way from the origin over all of them; the first, (x, y), once there is one.
#[derive(Clone, Copy, Debug, PartialEq, Eq)]
pub struct AreaSum {
    sum: i64,
    x: i32,
    y: i32,
    begun: bool,
}

// Before the first point.
pub fn sum_none() -> AreaSum
    ensures value { result ≡ unsummed }
{
    AreaSum {
        sum: 0,
        x: 0,
        y: 0,
        begun: false,
    }
}
