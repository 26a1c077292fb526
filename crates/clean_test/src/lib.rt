// Whether a contour is clean, found out point by point.
#![tactic(auto)]

ghost use Rattle.std.specs.Prelude.{◌≡◌};
ghost use Rattle.polygons.specs.Flat.{point};
ghost use Rattle.clean_test.specs.Seeing.{unseen, is_known, one_more, seeing, seen_clean};

use cleaning::same_point;

// What the points of a contour have shown so far: how many are different, up to three; the first, (x, y), and the latest that differed from all before it,
// (u, v); and whether none equalled the one before it.
#[derive(Clone, Copy)]
pub struct ContourSeen {
    different: u32,
    x: i32,
    y: i32,
    u: i32,
    v: i32,
    apart: bool,
}

// Before the first point.
pub fn see_none() -> ContourSeen
    ensures value { result ≡ unseen }
{
    ContourSeen {
        different: 0,
        x: 0,
        y: 0,
        u: 0,
        v: 0,
        apart: true,
    }
}

// Whether nothing more is learned from (x, y): three are different, or it is known.
fn is_known(s: ContourSeen, x: i32, y: i32) -> bool
    ensures value { result ≡ is_known s (point x y) }
{
    s.different == 3 || same_point(s.x, s.y, x, y) || same_point(s.u, s.v, x, y)
}

// How many are different with one more than n, which is 1 or 2.
fn one_more(n: u32) -> u32
    ensures value { result ≡ one_more n }
{
    if n == 1 { 2 } else { 3 }
}

// After one more point, (x, y), where (px, py) came before.
pub fn see(s: ContourSeen, px: i32, py: i32, x: i32, y: i32) -> ContourSeen
    ensures value { result ≡ seeing s (point px py) (point x y) }
{
    if s.different == 0 {
        return ContourSeen {
            different: 1,
            x,
            y,
            u: x,
            v: y,
            apart: true,
        };
    }
    let apart = s.apart & !same_point(px, py, x, y);
    if is_known(s, x, y) {
        return ContourSeen { apart, ..s };
    }
    ContourSeen {
        different: one_more(s.different),
        u: x,
        v: y,
        apart,
        ..s
    }
}

// After the last point, (x, y): whether the contour is clean.
pub fn seen_clean(s: ContourSeen, x: i32, y: i32) -> bool
    ensures value { result ≡ seen_clean s (point x y) }
{
    s.different == 3 && s.apart && !same_point(s.x, s.y, x, y)
}
