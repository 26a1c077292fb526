// Contours followed by pairing and height, for a right mesh.
ghost use Rattle.std.specs.Prelude.{◌≡◌, length};
ghost use Rattle.mesh.specs.Meshes.{paired};
ghost use Rattle.section.specs.Section.{below, Crossing, Right};
ghost use Rattle.all_active.specs.Lists.{active_at};
ghost use Rattle.all_contours.specs.Rounds.{successor_at, Followable, ContourFollowed, Outlinable, Followed, Marked};

use all_active::unchecked_lists::is_below;
use mesh::unchecked::{next_corner, previous_corner};
use polygons::LayerCounts;

// The successor of crossing c: its paired corner falls, so that one of the two other corners of that triangle rises, by the third vertex.
fn successor(coords: &[i32], corners: &[u32], pairing: &[u32], h: i32, c: usize) -> usize
    requires fact_1 { Right (paired coords.now corners.now pairing.now) }
    requires fact_2 { Crossing (below coords.now h) corners.now c }
    ensures value { result ≡ successor_at (paired coords.now corners.now pairing.now)
        h c }
{
    let d = pairing[c] as usize;
    let e = next_corner(d);
    let f = previous_corner(d);
    let v = corners[f] as usize;
    if is_below(coords, h, v) { f } else { e }
}

// Writes the contour of `start` into names, from place `at` on, and stamps its corners; returns the place after it.
fn follow_contour(
    coords: &[i32],
    corners: &[u32],
    pairing: &[u32],
    h: i32,
    stamp: u32,
    names: &mut [u32],
    marks: &mut [u32],
    start: usize,
    at: usize,
) -> usize
    requires { Followable (paired coords.now corners.now pairing.now) h names.old marks.old start at }
    ensures outcome { ContourFollowed (paired coords.now corners.now pairing.now) h
        stamp start at names.old marks.old names.new marks.new result }
{
    let mut c = start;
    let mut k = at;
    // Follows links, so no `for` fits.
    loop {
        names[k] = c as u32;
        marks[c] = stamp;
        k += 1;
        c = successor(coords, corners, pairing, h, c);
        if c == start {
            return k;
        }
    }
}

// Writes the contours of height h, by first corner, from the list of its crossings; returns their number and that of their points.
pub fn outline_crossings(
    coords: &[i32],
    corners: &[u32],
    pairing: &[u32],
    h: i32,
    stamp: u32,
    ring: &[u32],
    head: usize,
    names: &mut [u32],
    ends: &mut [u32],
    marks: &mut [u32],
) -> LayerCounts
    requires { Outlinable (paired coords.now corners.now pairing.now) h stamp ring.now head names.old
        ends.old marks.old }
    ensures outcome { Followed (paired coords.now corners.now pairing.now) h
        names.old ends.old names.new ends.new result.contours result.points }
    ensures marked { Marked (active_at coords.now corners.now h)
        (length corners.now) stamp marks.old marks.new }
{
    let n = corners.len();
    let mut c = head;
    let mut k: usize = 0;
    let mut j: usize = 0;
    // Follows links, so no `for` fits.
    while c < n {
        let start = c;
        c = ring[start] as usize;
        if marks[start] != stamp {
            k = follow_contour(coords, corners, pairing, h, stamp, names, marks, start, k);
            ends[j] = k as u32;
            j += 1;
        }
    }
    LayerCounts {
        contours: j,
        points: k,
    }
}
