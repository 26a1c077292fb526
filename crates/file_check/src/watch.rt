// What is kept in mind of the points of a contour as they are read: the full profile asks nothing of them, the clean one that they are clean.
ghost use Rattle.std.specs.Prelude.{◌≡◌};
ghost use Rattle.polygons.specs.Flat.{point};
ghost use Rattle.cleaning.specs.declared.Profile.{Profile};
ghost use Rattle.cleaning.specs.declared.Profile.TheVariants.{Full, Clean};
ghost use Rattle.clean_test.specs.Seeing.{unseen};
ghost use Rattle.clean_test.specs.declared.ContourSeen.{ContourSeen};
ghost use Rattle.file_check.specs.Watching.{seeing_in, seen_fits};

use clean_test::{ContourSeen, see, see_none, seen_clean};

// The watch of a profile over the points of a contour; `seen` is what it stands for.
pub trait Watch: Copy {
    ghost profile: { Profile };

    ghost seen: { Self → ContourSeen };

    // Before the first point.
    fn watch_none() -> Self
        ensures value { seen result ≡ unseen };

    // After one more point, (x, y), where (px, py) came before.
    fn pass(self, px: i32, py: i32, x: i32, y: i32) -> Self
        ensures value { seen result ≡ seeing_in profile (seen self) (point px py) (point x y) };

    // After the last point, (x, y): whether the contour may stand in the profile.
    fn fits(self, x: i32, y: i32) -> bool
        ensures value { result ≡ seen_fits profile (seen self) (point x y) };
}

// That of the full profile, in which any contour may stand.
#[derive(Clone, Copy)]
pub struct Unwatched;

impl Watch for Unwatched {
    ghost profile = { Full };

    ghost seen = { λ s. unseen };

    fn watch_none() -> Unwatched {
        Unwatched
    }

    fn pass(self, _px: i32, _py: i32, _x: i32, _y: i32) -> Unwatched {
        self
    }

    fn fits(self, _x: i32, _y: i32) -> bool {
        true
    }
}

// That of the clean profile.
impl Watch for ContourSeen {
    ghost profile = { Clean };

    ghost seen = { λ s. s };

    fn watch_none() -> ContourSeen {
        see_none()
    }

    fn pass(self, px: i32, py: i32, x: i32, y: i32) -> ContourSeen {
        see(self, px, py, x, y)
    }

    fn fits(self, x: i32, y: i32) -> bool {
        seen_clean(self, x, y)
    }
}
