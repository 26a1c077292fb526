// Points of a mesh: where edges meet a height. The `requires` say what the tests before it establish.
ghost use Rattle.std.specs.Prelude.{◌≡◌, ℕ, ◌+◌, ◌*◌, ◌≤◌, ◌<◌, length, get_or, take};
ghost use Rattle.laws.specs.Tables.{overwrite};
ghost use Rattle.mesh.specs.Corners.{coord_of};
ghost use Rattle.mesh.specs.Meshes.{mesh};
ghost use Rattle.cut_points.specs.Points.{numerator, denominator, rounded, point_at, points_of};
ghost use Rattle.cut_points.specs.Climbs.{Fraction, CrossedEdge, Climbs};

use mesh::limits::LARGEST_COORDINATE_64;
use mesh::unchecked::next_corner;

// n / d to the nearest whole number, halves away from zero (POINT-2). 2^20 divisors more make
// the dividend positive, so that `/` rounds down; one less takes a half below zero down as well.
// `div_euclid` in its place asks for the sign with a jump: with random signs it took up to 2.9 times as long.
fn rounded(n: i64, d: i64) -> i64
    requires { Fraction n d }
    ensures value { result ≡ rounded n d }
{
    let m = 2 * d;
    let half = if n < 0 { d - 1 } else { d };
    let t = 2 * n + half + LARGEST_COORDINATE_64 * m;
    t / m - LARGEST_COORDINATE_64
}

// x or y where the edge from u0 at height z0 up to u1 at height z1 meets h.
fn meet(u0: i32, u1: i32, z0: i32, z1: i32, h: i32) -> i32
    requires { CrossedEdge u0 u1 z0 z1 h }
    ensures value { result ≡ rounded (numerator u0 u1 z0 z1 h) (denominator z0 z1) }
{
    let u = u0 as i64;
    let z = z0 as i64;
    let d = (z1 as i64) - z;
    let n = u * d + ((u1 as i64) - u) * ((h as i64) - z);
    rounded(n, d) as i32
}

// Coordinate 0, 1 or 2 of vertex v.
fn coord_of(coords: &[i32], axis: usize, v: usize) -> i32
    requires { 3 * v + axis < length coords.now }
    ensures value { result ≡ coord_of coords.now axis v }
{
    coords[3 * v + axis]
}

// x (axis 0) or y (axis 1) of the point of corner c.
pub fn point_at(coords: &[i32], corners: &[u32], h: i32, axis: usize, c: usize) -> i32
    requires fact_1 { axis ≤ 1 }
    requires fact_2 { Climbs (mesh coords.now corners.now) h c }
    ensures value { result ≡ point_at (mesh coords.now corners.now) h axis c }
{
    let n = next_corner(c);
    let a = corners[c] as usize;
    let b = corners[n] as usize;
    let u0 = coord_of(coords, axis, a);
    let u1 = coord_of(coords, axis, b);
    let z0 = coord_of(coords, 2, a);
    let z1 = coord_of(coords, 2, b);
    meet(u0, u1, z0, z1, h)
}

// Writes the points of the first k names.
pub fn put_points(
    coords: &[i32],
    corners: &[u32],
    h: i32,
    names: &[u32],
    points: &mut [i32],
    k: usize,
)
    requires fact_1 { (k ≤ length names.now) × (2 * k ≤ length points.old) }
    requires fact_2 { ((i : ℕ) → i < k → Climbs (mesh coords.now corners.now) h (get_or names.now i 0)) }
    ensures left { points.new ≡ overwrite
        (points_of (mesh coords.now corners.now) h (take k names.now))
        points.old }
{
    for i in 0..k {
        let c = names[i] as usize;
        let x = point_at(coords, corners, h, 0, c);
        let y = point_at(coords, corners, h, 1, c);
        points[2 * i] = x;
        points[2 * i + 1] = y;
    }
}
