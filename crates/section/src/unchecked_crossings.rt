// Crossings and successors of a mesh: each `requires` says what the tests of a mesh establish. A vertex is passed if it stands before
// the place (h, k) by z and then by number; (h, 0) is the set of height h.
ghost use Rattle.std.specs.Prelude.{◌≡◌, true, not, ◌&&◌, ◌+◌, ◌%◌, ◌<◌, ◌≤◌, length, set};
ghost use Rattle.laws.specs.Tables.{refill};
ghost use Rattle.mesh.specs.Corners.{vertex_count, triangle_of, start_of};
ghost use Rattle.section.specs.Section.{under, rising, falling, rising_in, ring_entry, Crossing, Named, Linked};
ghost use Rattle.section.specs.Triangles.{Between, set_three};

use crate::NO_CORNER;
use mesh::unchecked::{next_corner, previous_corner};

// Whether vertex v is passed.
pub fn is_passed(coords: &[i32], h: i32, k: usize, v: usize) -> bool
    requires { v < vertex_count coords.now }
    ensures value { result ≡ under coords.now h k v }
{
    let i = 3 * v + 2;
    let z = coords[i];
    // By cases: joined by && and ||, Layer over vertices that are passed already takes a fifth more instructions.
    if z < h {
        true
    } else if h < z {
        false
    } else {
        v < k
    }
}

// Whether the start of corner c is passed.
fn starts_passed(coords: &[i32], corners: &[u32], h: i32, k: usize, c: usize) -> bool
    requires fact_1 { Named coords.now corners.now }
    requires fact_2 { c < length corners.now }
    ensures value { result ≡ under coords.now h k (start_of corners.now c) }
{
    let v = corners[c] as usize;
    is_passed(coords, h, k, v)
}

// Whether an edge from u to v leads from a passed vertex to one that is not.
fn leads_up(coords: &[i32], h: i32, k: usize, u: usize, v: usize) -> bool
    requires { (u < vertex_count coords.now) × (v < vertex_count coords.now) }
    ensures value { result ≡ (under coords.now h k u && not (under coords.now h k v)) }
{
    is_passed(coords, h, k, u) && !is_passed(coords, h, k, v)
}

// Whether corner c rises.
pub fn is_rising(coords: &[i32], corners: &[u32], h: i32, k: usize, c: usize) -> bool
    requires fact_1 { Named coords.now corners.now }
    requires fact_2 { c < length corners.now }
    ensures value { result ≡ rising (under coords.now h k) corners.now c }
{
    let n = next_corner(c);
    let u = corners[c] as usize;
    let v = corners[n] as usize;
    leads_up(coords, h, k, u, v)
}

// The rising corner of the triangle of a falling corner d: the one after d, or the one after that where the third vertex is passed too.
pub fn rising_beside(coords: &[i32], corners: &[u32], h: i32, k: usize, d: usize) -> usize
    requires fact_1 { Named coords.now corners.now }
    requires fact_2 { d < length corners.now }
    requires fact_3 { falling (under coords.now h k) corners.now d ≡ true }
    ensures value { result ≡ rising_in (under coords.now h k) corners.now (triangle_of d) }
{
    let e = next_corner(d);
    let f = previous_corner(d);
    let w = corners[f] as usize;
    if is_passed(coords, h, k, w) { f } else { e }
}

// The ring entry of a corner c that rises.
fn link_of(coords: &[i32], corners: &[u32], pairing: &[u32], h: i32, k: usize, c: usize) -> u32
    requires fact_1 { Named coords.now corners.now }
    requires fact_2 { Linked corners.now pairing.now }
    requires fact_3 { Crossing (under coords.now h k) corners.now c }
    ensures value { result ≡ ring_entry (under coords.now h k) corners.now
        pairing.now c }
{
    let d = pairing[c] as usize;
    rising_beside(coords, corners, h, k, d) as u32
}

// The ring entry of corner c.
pub fn entry_of(coords: &[i32], corners: &[u32], pairing: &[u32], h: i32, k: usize, c: usize) -> u32
    requires fact_1 { Named coords.now corners.now }
    requires fact_2 { Linked corners.now pairing.now }
    requires fact_3 { c < length corners.now }
    ensures value { result ≡ ring_entry (under coords.now h k) corners.now
        pairing.now c }
{
    if is_rising(coords, corners, h, k, c) {
        link_of(coords, corners, pairing, h, k, c)
    } else {
        NO_CORNER
    }
}

// Writes the ring entry of every corner.
pub fn link(coords: &[i32], corners: &[u32], pairing: &[u32], h: i32, k: usize, ring: &mut [u32])
    requires fact_1 { Named coords.now corners.now }
    requires fact_2 { Linked corners.now pairing.now }
    requires fact_3 { length corners.now ≤ length ring.old }
    ensures left { ring.new ≡ refill (length corners.now)
        (ring_entry (under coords.now h k) corners.now pairing.now) ring.old }
{
    for c in 0..corners.len() {
        ring[c] = entry_of(coords, corners, pairing, h, k, c);
    }
}

// The ring entry of corner c, where `start` and `end` say whether its start and its end are passed.
fn entry_between(
    coords: &[i32],
    corners: &[u32],
    pairing: &[u32],
    h: i32,
    k: usize,
    c: usize,
    start: bool,
    end: bool,
) -> u32
    requires fact_1 { Named coords.now corners.now }
    requires fact_2 { Linked corners.now pairing.now }
    requires fact_3 { Between (under coords.now h k) corners.now c start end }
    ensures value { result ≡ ring_entry (under coords.now h k) corners.now
        pairing.now c }
{
    if start && !end {
        link_of(coords, corners, pairing, h, k, c)
    } else {
        NO_CORNER
    }
}

// Whether all three are so, or none is.
fn is_level(p: bool, q: bool, r: bool) -> bool
    ensures sound { result ≡ true → (p ≡ q) × (q ≡ r) }
{
    p == q && q == r
}

// Writes three entries, from entry c on.
fn put_three(t: &mut [u32], c: usize, x: u32, y: u32, z: u32)
    requires { c + 2 < length t.old }
    ensures left { t.new ≡ set (set (set t.old c x) (c + 1) y) (c + 2) z }
{
    t[c] = x;
    t[c + 1] = y;
    t[c + 2] = z;
}

// Writes the ring entries of the triangle of corners c, c + 1 and c + 2.
fn link_triangle(
    coords: &[i32],
    corners: &[u32],
    pairing: &[u32],
    h: i32,
    ring: &mut [u32],
    c: usize,
)
    requires fact_1 { Named coords.now corners.now }
    requires fact_2 { Linked corners.now pairing.now }
    requires fact_3 { length corners.now ≤ length ring.old }
    requires fact_4 { (c < length corners.now) × (c % 3 ≡ 0) }
    ensures left { ring.new ≡ set_three
        (ring_entry (under coords.now h 0) corners.now pairing.now) c
        ring.old }
{
    let d = c + 1;
    let e = c + 2;
    let p = starts_passed(coords, corners, h, 0, c);
    let q = starts_passed(coords, corners, h, 0, d);
    let r = starts_passed(coords, corners, h, 0, e);
    if is_level(p, q, r) {
        put_three(ring, c, NO_CORNER, NO_CORNER, NO_CORNER);
        return;
    }
    let x = entry_between(coords, corners, pairing, h, 0, c, p, q);
    let y = entry_between(coords, corners, pairing, h, 0, d, q, r);
    let z = entry_between(coords, corners, pairing, h, 0, e, r, p);
    put_three(ring, c, x, y, z);
}

// Writes the ring entry of every corner for height h, triangle by triangle.
pub fn link_at(coords: &[i32], corners: &[u32], pairing: &[u32], h: i32, ring: &mut [u32])
    requires fact_1 { Named coords.now corners.now }
    requires fact_2 { Linked corners.now pairing.now }
    requires fact_3 { length corners.now ≤ length ring.old }
    ensures left { ring.new ≡ refill (length corners.now)
        (ring_entry (under coords.now h 0) corners.now pairing.now) ring.old }
{
    for t in 0..corners.len() / 3 {
        link_triangle(coords, corners, pairing, h, ring, 3 * t);
    }
}
