// The parts of the sweep. Each `requires` says what the tests before it establish.
ghost use Rattle.std.specs.Prelude.{◌≡◌, ◌+◌, ◌-◌, ◌*◌, ◌<◌, ◌≤◌, length, get_or};
ghost use Rattle.laws.specs.Least.{least};
ghost use Rattle.laws.specs.Tables.{refill};
ghost use Rattle.mesh.specs.Corners.{vertex_count};
ghost use Rattle.mesh.specs.Meshes.{ordered};
ghost use Rattle.mesh.specs.Operation.{test};
ghost use Rattle.mesh.specs.Refusals.{tell_verdict};
ghost use Rattle.section.specs.Section.{under, Named, Linked};
ghost use Rattle.sweep.specs.Sweep.{sweep, touches, relinked};
ghost use Rattle.sweep.specs.Operations.{wrong_ring, not_above};
ghost use Rattle.sweep.specs.Places.{height_behind, number_behind, wrong_for, InOrder, Placed};

use mesh::Refusal;
use mesh::limits::LEAST_COORDINATE;
use section::unchecked_crossings::entry_of;

// Whether triangle t touches vertex v.
fn touched(corners: &[u32], t: usize, v: usize) -> bool
    requires { 3 * t + 2 < length corners.now }
    ensures value { result ≡ touches corners.now t v }
{
    let i = 3 * t;
    let j = i + 1;
    let k = i + 2;
    corners[i] as usize == v || corners[j] as usize == v || corners[k] as usize == v
}

// Rewrites the entries of the corners whose paired corner's triangle touches w, for the vertices before (h, k).
pub fn relink(
    coords: &[i32],
    corners: &[u32],
    pairing: &[u32],
    h: i32,
    k: usize,
    w: usize,
    ring: &mut [u32],
)
    requires fact_1 { Named coords.now corners.now }
    requires fact_2 { Linked corners.now pairing.now }
    requires fact_3 { length corners.now ≤ length ring.old }
    ensures left { ring.new ≡ refill (length corners.now) (relinked
        (under coords.now h k) corners.now pairing.now w ring.old)
        ring.old }
{
    let n = corners.len();
    for c in 0..n {
        let d = pairing[c] as usize;
        if touched(corners, d / 3, w) {
            ring[c] = entry_of(coords, corners, pairing, h, k, c);
        }
    }
}

// The z of the last of the first n vertices of the order.
pub fn height_behind(coords: &[i32], order: &[u32], n: usize) -> i32
    requires fact_1 { n ≤ length order.now }
    requires fact_2 { (0 < n → get_or order.now (n - 1) 0 < vertex_count coords.now) }
    ensures value { result ≡ height_behind coords.now order.now n }
{
    if n == 0 {
        return LEAST_COORDINATE;
    }
    let w = order[n - 1] as usize;
    coords[3 * w + 2]
}

// One more than the last of the first n vertices of the order.
pub fn number_behind(order: &[u32], n: usize) -> usize
    requires { n ≤ length order.now }
    ensures value { result ≡ number_behind order.now n }
{
    if n == 0 { 0 } else { order[n - 1] as usize + 1 }
}

// Whether the entry of corner c is missing or not as defined for the vertices before (h, k).
fn is_wrong(
    coords: &[i32],
    corners: &[u32],
    pairing: &[u32],
    h: i32,
    k: usize,
    ring: &[u32],
    c: usize,
) -> bool
    requires fact_1 { Named coords.now corners.now }
    requires fact_2 { Linked corners.now pairing.now }
    requires fact_3 { c < length corners.now }
    ensures value { result ≡ wrong_for (under coords.now h k) corners.now pairing.now
        ring.now c }
{
    ring.len() <= c || ring[c] != entry_of(coords, corners, pairing, h, k, c)
}

// The least corner with such an entry, else the number of corners.
fn first_wrong(
    coords: &[i32],
    corners: &[u32],
    pairing: &[u32],
    h: i32,
    k: usize,
    ring: &[u32],
) -> usize
    requires fact_1 { Named coords.now corners.now }
    requires fact_2 { Linked corners.now pairing.now }
    ensures value { result ≡ least (length corners.now)
        (wrong_for (under coords.now h k) corners.now pairing.now ring.now) }
{
    // Where the table ends, the next corner's entry is missing.
    let end = corners.len().min(ring.len());
    for c in 0..end {
        if is_wrong(coords, corners, pairing, h, k, ring, c) {
            return c;
        }
    }
    end
}

// Refusal 11 of Layer (LAYER-5).
pub fn ring_test(
    coords: &[i32],
    corners: &[u32],
    pairing: &[u32],
    order: &[u32],
    ring: &[u32],
    n: usize,
) -> Result<(), Refusal>
    requires { Placed (ordered coords.now corners.now pairing.now order.now) n }
    ensures told { tell_verdict result ≡ test (wrong_ring
        (sweep
        (ordered coords.now corners.now pairing.now order.now)
        ring.now n)) }
{
    let h = height_behind(coords, order, n);
    let k = number_behind(order, n);
    let c = first_wrong(coords, corners, pairing, h, k, ring);
    if c < corners.len() {
        return Err(Refusal::Ring(c));
    }
    Ok(())
}

// Refusal 12 (LAYER-6): the last passed vertex is the highest.
pub fn height_test(coords: &[i32], order: &[u32], n: usize, h: i32) -> Result<(), Refusal>
    requires fact_1 { n ≤ vertex_count coords.now }
    requires fact_2 { InOrder coords.now order.now }
    ensures told { tell_verdict result ≡ test (not_above coords.now order.now n h) }
{
    if n == 0 || height_behind(coords, order, n) < h {
        return Ok(());
    }
    Err(Refusal::Height(0))
}
