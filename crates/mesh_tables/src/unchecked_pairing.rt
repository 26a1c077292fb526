// The test of a pairing, for corners whose number is tested.
ghost use Rattle.std.specs.Prelude.{◌≡◌, true, ◌<◌, ◌≤◌, length};
ghost use Rattle.laws.specs.Least.{least};
ghost use Rattle.mesh.specs.Corners.{triangle_count};
ghost use Rattle.mesh.specs.Operation.{Nowhere, test};
ghost use Rattle.mesh.specs.Refusals.{tell_verdict};
ghost use Rattle.mesh.specs.Tests.{WholeTriangles, reverse, paired_at, unpaired, pairs};
ghost use Rattle.mesh_tables.specs.Meeting.{MeetsVertex, Thrice};

use mesh::Refusal;
use mesh::unchecked::next_corner;

// Whether corners c and d stand for reverse edges.
fn is_reverse(corners: &[u32], c: usize, d: usize) -> bool
    requires fact_1 { WholeTriangles (length corners.now) }
    requires fact_2 { (c < length corners.now) × (d < length corners.now) }
    ensures value { result ≡ reverse corners.now c d }
{
    let i = next_corner(c);
    let j = next_corner(d);
    corners[d] == corners[i] && corners[j] == corners[c]
}

// Whether corner c has an entry that is a corner with the reverse edge and is paired back.
fn is_paired(corners: &[u32], pairing: &[u32], c: usize) -> bool
    requires fact_1 { WholeTriangles (length corners.now) }
    requires fact_2 { c < length corners.now }
    ensures value { result ≡ paired_at corners.now pairing.now c }
{
    if pairing.len() <= c {
        return false;
    }
    let d = pairing[c] as usize;
    if corners.len() <= d {
        return false;
    }
    if !is_reverse(corners, c, d) {
        return false;
    }
    if pairing.len() <= d {
        return false;
    }
    pairing[d] as usize == c
}

// The least corner that is not paired rightly, else the number of corners.
fn first_unpaired(corners: &[u32], pairing: &[u32]) -> usize
    requires { WholeTriangles (length corners.now) }
    ensures value { result ≡ least (length corners.now)
        (unpaired corners.now pairing.now) }
{
    for c in 0..corners.len() {
        if !is_paired(corners, pairing, c) {
            return c;
        }
    }
    corners.len()
}

// Whether corner c is paired with a corner that starts at vertex v and is paired back.
fn corner_meets(corners: &[u32], pairing: &[u32], c: usize, v: u32) -> bool
    requires { (c < length corners.now) × (length corners.now ≤ length pairing.now) }
    ensures sound { result ≡ true → MeetsVertex corners.now pairing.now c v }
{
    let d = pairing[c] as usize;
    d < corners.len() && corners[d] == v && c == pairing[d] as usize
}

// Whether each corner of triangle t is paired with one that starts where it ends and is paired back.
fn triangle_meets(corners: &[u32], pairing: &[u32], t: usize) -> bool
    requires { (t < triangle_count corners.now) × (length corners.now ≤ length pairing.now) }
    ensures sound { result ≡ true → Thrice corners.now pairing.now t }
{
    let i = 3 * t;
    let j = i + 1;
    let k = i + 2;
    corner_meets(corners, pairing, i, corners[j])
        && corner_meets(corners, pairing, j, corners[k])
        && corner_meets(corners, pairing, k, corners[i])
}

// Whether every corner is so paired. Then each is paired rightly: that its partner ends where it starts is the partner's own test.
fn all_meet(corners: &[u32], pairing: &[u32]) -> bool
    requires { WholeTriangles (length corners.now) }
    ensures sound { result ≡ true → Nowhere (pairs corners.now pairing.now) }
{
    if pairing.len() < corners.len() {
        return false;
    }
    let n = corners.len() / 3;
    for t in 0..n {
        if !triangle_meets(corners, pairing, t) {
            return false;
        }
    }
    true
}

// Refusal 7 (CUT-10).
pub fn pairing_test(corners: &[u32], pairing: &[u32]) -> Result<(), Refusal>
    requires { WholeTriangles (length corners.now) }
    ensures told { tell_verdict result ≡ test (pairs corners.now pairing.now) }
{
    if all_meet(corners, pairing) {
        return Ok(());
    }
    let c = first_unpaired(corners, pairing);
    if c < corners.len() {
        return Err(Refusal::Pairing(c));
    }
    Ok(())
}
