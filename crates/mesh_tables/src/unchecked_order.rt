// The places of an order table, for entries that are vertices.
ghost use Rattle.std.specs.Prelude.{◌≡◌, ◌<◌, ◌≤◌, length};
ghost use Rattle.laws.specs.Least.{least};
ghost use Rattle.mesh.specs.Corners.{vertex_count};
ghost use Rattle.mesh.specs.Order.{rank, RisingPrefix};
ghost use Rattle.mesh_tables.specs.Rising.{rises_at, misplaced_at};

use mesh::unchecked::comes_before;

// How many vertices stand before vertex v.
pub fn rank_of(coords: &[i32], v: usize) -> usize
    requires { v < vertex_count coords.now }
    ensures value { result ≡ rank coords.now v }
{
    let n = coords.len() / 3;
    let mut r = 0;
    for u in 0..n {
        if comes_before(coords, u, v) {
            r += 1;
        }
    }
    r
}

// Whether entry i is there, is a vertex, and stands after the entry in front of it.
pub fn goes_on(coords: &[i32], order: &[u32], i: usize) -> bool
    requires { RisingPrefix coords.now order.now i }
    ensures value { result ≡ rises_at coords.now order.now i }
{
    let n = coords.len() / 3;
    if i >= order.len() {
        return false;
    }
    let v = order[i] as usize;
    v < n && (i == 0 || comes_before(coords, order[i - 1] as usize, v))
}

// The first of m rising entries whose rank is not its place, and m where none is: once one is wrong, so is each after it.
pub fn first_misplaced(coords: &[i32], order: &[u32], m: usize) -> usize
    requires { (m ≤ length order.now) × RisingPrefix coords.now order.now m }
    ensures value { result ≡ least m (misplaced_at coords.now order.now) }
{
    let mut lo = 0;
    let mut hi = m;
    while lo < hi {
        let mid = lo + (hi - lo) / 2;
        let v = order[mid] as usize;
        if rank_of(coords, v) == mid {
            lo = mid + 1;
        } else {
            hi = mid;
        }
    }
    lo
}
