// Trapezoids and their sums: each `requires` says that the coordinates are in range and the sum is small enough for one more.
ghost use Rattle.std.specs.Prelude.{◌≡◌, ◌*◌, ◌≤◌, nat_abs, ◌+ℤ◌, ◌-ℤ◌, ◌*ℤ◌};
ghost use Rattle.mesh.specs.Corners.{largest};
ghost use Rattle.polygons.specs.ContourAreas.{largest_cross};
ghost use Rattle.polygons.specs.Flat.{point, PointNear};
ghost use Rattle.area_sum.specs.Summing.{summing, closing, SumSmall};

use crate::AreaSum;

// Twice the signed area between the x axis and the edge from (x, y) to (u, v), and that it is small.
pub fn trapezoid(x: i64, y: i64, u: i64, v: i64) -> i64
    requires { (nat_abs x ≤ largest) × (nat_abs y ≤ largest) × (nat_abs u ≤ largest) × (nat_abs v ≤ largest) }
    ensures result { (result ≡ (x -ℤ u) *ℤ (y +ℤ v)) × (nat_abs result ≤ 2 * largest_cross) }
{
    (x - u) * (y + v)
}

// After one more point, (x, y), where (px, py) came before, and the origin before the first.
pub fn sum_point(s: AreaSum, px: i32, py: i32, x: i32, y: i32) -> AreaSum
    requires { SumSmall s × PointNear (point px py) × PointNear (point x y) }
    ensures value { result ≡ summing s (point px py) (point x y) }
{
    let sum = s.sum + trapezoid(i64::from(px), i64::from(py), i64::from(x), i64::from(y));
    if s.begun {
        return AreaSum { sum, ..s };
    }
    AreaSum {
        sum,
        x,
        y,
        begun: true,
    }
}

// After the last point, (x, y): back to the first and from there to the origin, so that the way from the origin is taken off again.
pub fn sum_closed(s: AreaSum, x: i32, y: i32) -> i64
    requires { SumSmall s × PointNear (point x y) }
    ensures value { result ≡ closing s (point x y) }
{
    let u = i64::from(s.x);
    let v = i64::from(s.y);
    s.sum + trapezoid(i64::from(x), i64::from(y), u, v) + trapezoid(u, v, 0, 0)
}
