// Where a point is drawn: its `requires` is what the tests of a layer and of an origin establish.
ghost use Rattle.std.specs.Prelude.{◌≡◌, ◌≤◌, true, unsigned_abs};
ghost use Rattle.mesh.specs.Corners.{largest};
ghost use Rattle.polygons.specs.Flat.{point};
ghost use Rattle.preview_floats.specs.DrawnPoints.{whole_origin, drawn_at};

use crate::{DrawnPoint, Origin};

// Point plus origin: nothing is rounded (PREVIEW-3).
pub fn drawn_point(x: i32, y: i32, origin: Origin) -> DrawnPoint
    requires { (unsigned_abs x ≤ largest) × (unsigned_abs y ≤ largest) × (whole_origin origin ≡ true) }
    ensures value { result ≡ drawn_at origin (point x y) }
{
    DrawnPoint {
        x: x as f32 + origin.x,
        y: y as f32 + origin.y,
    }
}
