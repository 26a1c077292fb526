// The calls of a layer and an origin that the tests have passed.
ghost use Rattle.std.specs.Prelude.{◌≡◌, suc, ◌+◌, ◌-◌, ◌*◌, ◌≤◌, ◌<◌, min, length, set, take, drop, slice_get};
ghost use Rattle.polygons.specs.Flat.{flat};
ghost use Rattle.preview.specs.Calls.{calls_of};
ghost use Rattle.preview.specs.Preview.{Drawable, call_tables, filled_count, filled_with};
ghost use Rattle.preview.specs.Places.{lines_from, rest_from, calls_left, put_calls, Room, Points};

use crate::{PathCall, contour_with};
use polygons::unchecked::prior_end;
use preview_floats::unchecked::drawn_point;
use preview_floats::{DrawnPoint, Origin};

// The call of a number, or that there is none (PREVIEW-5).
pub fn call_at(points: &[i32], ends: &[u32], origin: Origin, number: usize) -> Option<PathCall>
    requires { Drawable (flat points.now ends.now) origin }
    ensures value { result ≡ slice_get (calls_of origin (flat points.now ends.now)) number }
{
    let j = contour_with(ends, number);
    let e = *ends.get(j)? as usize;
    let i = number - j;
    if e == i {
        return Some(PathCall::Close);
    }
    let k = 2 * i;
    let l = k + 1;
    let p = drawn_point(points[k], points[l], origin);
    if prior_end(ends, j) == i {
        return Some(PathCall::Move(p.x, p.y));
    }
    Some(PathCall::Line(p.x, p.y))
}

// A drawn point as call n.
fn put_point(floats: &mut [f32], n: usize, p: DrawnPoint)
    requires { 2 * n + 1 < length floats.old }
    ensures left { floats.new ≡ set (set floats.old (2 * n) p.x) (2 * n + 1) p.y }
{
    let a = 2 * n;
    let b = a + 1;
    floats[a] = p.x;
    floats[b] = p.y;
}

// Lines to the points from i on, as calls n up to `last`.
fn fill_lines(
    points: &[i32],
    origin: Origin,
    i: usize,
    n: usize,
    last: usize,
    kinds: &mut [u8],
    floats: &mut [f32],
)
    requires fact_1 { Room (call_tables kinds.old floats.old) n last }
    requires fact_2 { Points points.now origin (i + (last - n)) }
    ensures left { call_tables kinds.new floats.new
        ≡ put_calls n (lines_from origin points.now i (last - n))
        (call_tables kinds.old floats.old) }
{
    for k in n..last {
        let a = 2 * (i + (k - n));
        let b = a + 1;
        put_point(floats, k, drawn_point(points[a], points[b], origin));
        kinds[k] = 1;
    }
}

// Lines from point i up to e and a close, as calls n up to `room`; returns where they end.
fn fill_rest(
    points: &[i32],
    origin: Origin,
    e: usize,
    i: usize,
    n: usize,
    room: usize,
    kinds: &mut [u8],
    floats: &mut [f32],
) -> usize
    requires fact_1 { Room (call_tables kinds.old floats.old) n room }
    requires fact_2 { Points points.now origin e }
    requires fact_3 { i ≤ e }
    ensures value { result ≡ n + min (room - n) (suc (e - i)) }
    ensures left { call_tables kinds.new floats.new
        ≡ put_calls n (take (room - n) (rest_from origin points.now i e))
        (call_tables kinds.old floats.old) }
{
    let last = (n + (e - i)).min(room);
    fill_lines(points, origin, i, n, last, kinds, floats);
    if last < room {
        kinds[last] = 2;
        return last + 1;
    }
    last
}

// The calls of a contour from s up to e that are left at point i, as calls n up to `room`; returns where they end.
fn fill_contour(
    points: &[i32],
    origin: Origin,
    s: usize,
    e: usize,
    i: usize,
    n: usize,
    room: usize,
    kinds: &mut [u8],
    floats: &mut [f32],
) -> usize
    requires fact_1 { Room (call_tables kinds.old floats.old) n room }
    requires fact_2 { Points points.now origin e }
    requires fact_3 { (s < e) × (i ≤ e) × (n < room) }
    ensures value { result ≡ n + min (room - n) (suc (e - i)) }
    ensures left { call_tables kinds.new floats.new
        ≡ put_calls n (take (room - n) (calls_left origin points.now s e i))
        (call_tables kinds.old floats.old) }
{
    if i == s {
        let a = 2 * i;
        let b = a + 1;
        put_point(floats, n, drawn_point(points[a], points[b], origin));
        kinds[n] = 0;
        return fill_rest(points, origin, e, i + 1, n + 1, room, kinds, floats);
    }
    fill_rest(points, origin, e, i, n, room, kinds, floats)
}

// The calls from `number` on, as many as there are and as the tables hold; returns how many (PREVIEW-9).
pub fn fill_calls(
    points: &[i32],
    ends: &[u32],
    origin: Origin,
    number: usize,
    kinds: &mut [u8],
    floats: &mut [f32],
) -> usize
    requires { Drawable (flat points.now ends.now) origin }
    ensures value { result ≡ filled_count (calls_of origin (flat points.now ends.now)) number
        (call_tables kinds.old floats.old) }
    ensures left { call_tables kinds.new floats.new
        ≡ filled_with (take result (drop number (calls_of origin (flat points.now ends.now))))
        (call_tables kinds.old floats.old) }
{
    let room = kinds.len().min(floats.len() / 2);
    let mut j = contour_with(ends, number);
    let mut n: usize = 0;
    // Call and contour go on at different paces: a contour has many calls.
    while n < room {
        if ends.len() <= j {
            return n;
        }
        let s = prior_end(ends, j);
        let e = ends[j] as usize;
        let i = number + n - j;
        n = fill_contour(points, origin, s, e, i, n, room, kinds, floats);
        j += 1;
    }
    n
}
