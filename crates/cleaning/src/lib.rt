// The clean profile: what cleaning a contour and a layer is stands in specs/. The crates `clean_contour`, `clean_layers` and `clean` clean, `clean_test` tells
// whether a contour is clean.

#![tactic(auto)]

ghost use Rattle.std.specs.Prelude.{◌≡◌};
ghost use Rattle.polygons.specs.Flat.{point};
ghost use Rattle.cleaning.specs.Cleaning.{same_point};

// Layers as they are cut, or cleaned.
#[derive(Clone, Copy, Debug, PartialEq, Eq)]
pub enum Profile {
    Full,
    Clean,
}

// Whether (x, y) and (u, v) are the same point.
pub fn same_point(x: i32, y: i32, u: i32, v: i32) -> bool
    ensures value { result ≡ same_point (point x y) (point u v) }
{
    (x == u) & (y == v)
}
