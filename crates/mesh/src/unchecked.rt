// Leaves over corners, vertices and tables. Each `requires` says what the tests before it establish.
ghost use Rattle.std.specs.Prelude.{◌≡◌, ◌<◌, ◌≤◌, ◌+◌, ◌*◌, ◌/◌, length, replicate, true};
ghost use Rattle.laws.specs.Tables.{overwrite};
ghost use Rattle.mesh.specs.Corners.{next_corner, vertex_count, triangle_count, most_corners};
ghost use Rattle.mesh.specs.Order.{before};
ghost use Rattle.mesh.specs.Tests.{out_of_range, names_none, vertex, names_twice, triangle};

use crate::limits::{LARGEST_COORDINATE, LEAST_COORDINATE};

// The corner after c in its triangle. The remainder costs less in 32 bits.
pub fn next_corner(c: usize) -> usize
    requires { c < most_corners }
    ensures value { result ≡ next_corner c }
{
    if (c as u32) % 3 == 2 {
        return c - 2;
    }
    c + 1
}

// The corner before c in its triangle.
pub fn previous_corner(c: usize) -> usize
    requires { c < most_corners }
    ensures value { result ≡ next_corner (next_corner c) }
{
    if (c as u32) % 3 == 0 {
        return c + 2;
    }
    c - 1
}

// Whether vertex u stands before vertex v: by z, and then by number.
pub fn comes_before(coords: &[i32], u: usize, v: usize) -> bool
    requires { (u < vertex_count coords.now) × (v < vertex_count coords.now) }
    ensures value { result ≡ before coords.now u v }
{
    let i = 3 * u + 2;
    let j = 3 * v + 2;
    let a = coords[i];
    let b = coords[j];
    if a < b {
        return true;
    }
    if b < a {
        return false;
    }
    u < v
}

// Sets the first n entries to x.
pub fn fill<T: Copy>(t: &mut [T], n: usize, x: T)
    requires { n ≤ length t.old }
    ensures left { t.new ≡ overwrite (replicate n x) t.old }
{
    for e in &mut t[..n] {
        *e = x;
    }
}

// Whether the number at position i is no coordinate.
pub fn out_of_range(coords: &[i32], i: usize) -> bool
    requires { i < length coords.now }
    ensures value { result ≡ out_of_range coords.now i }
{
    let z = coords[i];
    if z < LEAST_COORDINATE {
        return true;
    }
    LARGEST_COORDINATE < z
}

// Whether corner c names no vertex.
pub fn names_none(vertices: usize, corners: &[u32], c: usize) -> bool
    requires { c < length corners.now }
    ensures value { result ≡ names_none vertices corners.now c }
{
    vertices <= corners[c] as usize
}

// Whether triangle t names a vertex twice.
pub fn names_twice(corners: &[u32], t: usize) -> bool
    requires { t < triangle_count corners.now }
    ensures value { result ≡ names_twice corners.now t }
{
    let i = 3 * t;
    let j = i + 1;
    let k = i + 2;
    let a = corners[i];
    let b = corners[j];
    let c = corners[k];
    if a == b {
        return true;
    }
    if b == c {
        return true;
    }
    c == a
}
