// The doubled area of points that the tests have passed, by trapezoids.
ghost use Rattle.std.specs.Prelude.{◌≡◌};
ghost use Rattle.contours.specs.Areas.{area_of};
ghost use Rattle.contours.specs.Runs.{PointRun};

use area_sum::unchecked::trapezoid;

// The doubled signed area of points that Area does not refuse.
pub fn doubled_area(points: &[i32]) -> i64
    requires { PointRun points.now }
    ensures value { result ≡ area_of points.now }
{
    if points.is_empty() {
        return 0;
    }
    let x0 = i64::from(points[0]);
    let y0 = i64::from(points[1]);
    let mut x = x0;
    let mut y = y0;
    let mut sum: i64 = 0;
    for k in 1..points.len() / 2 {
        let u = i64::from(points[2 * k]);
        let v = i64::from(points[2 * k + 1]);
        sum += trapezoid(x, y, u, v);
        x = u;
        y = v;
    }
    sum + trapezoid(x, y, x0, y0)
}
