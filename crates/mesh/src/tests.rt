// The tests of tables that several operations share. Each answers with the refusal that it finds, at its least place.
ghost use Rattle.std.specs.Prelude.{◌≡◌, true, ◌+◌, ◌*◌, ◌/◌, ◌<◌, length};
ghost use Rattle.laws.specs.Least.{least};
ghost use Rattle.mesh.specs.Corners.{triangle_count};
ghost use Rattle.mesh.specs.Meshes.{mesh};
ghost use Rattle.mesh.specs.Operation.{Nowhere, test, verdict};
ghost use Rattle.mesh.specs.Refusals.{tell_verdict};
ghost use Rattle.mesh.specs.Tests.{sizes_fit, size, out_of_range, range, names_none, vertex, names_twice, triangle, mesh_tests};

use crate::Refusal;
use crate::limits::{MOST_TRIANGLES, MOST_VERTICES};
use crate::unchecked::{names_none, names_twice, out_of_range};

// Whether tables of these lengths hold whole vertices and triangles, within the limits.
fn sizes_fit(coords: usize, corners: usize) -> bool
    ensures value { result ≡ sizes_fit coords corners }
{
    if coords % 3 != 0 {
        return false;
    }
    if corners % 3 != 0 {
        return false;
    }
    if MOST_VERTICES < coords / 3 {
        return false;
    }
    corners / 3 <= MOST_TRIANGLES
}

// Refusal 1 (CHECK-5).
pub fn size_test(coords: &[i32], corners: &[u32]) -> Result<(), Refusal>
    ensures told { tell_verdict result ≡ test (size (mesh coords.now corners.now)) }
{
    if sizes_fit(coords.len(), corners.len()) {
        return Ok(());
    }
    Err(Refusal::Size(0))
}

// Whether every number is a coordinate: a pass that returns at its end only, and so tests several at once.
fn all_in_range(coords: &[i32]) -> bool
    ensures sound { result ≡ true → Nowhere (range coords.now) }
{
    let mut fine = true;
    for i in 0..coords.len() {
        fine = fine & !out_of_range(coords, i);
    }
    fine
}

// The least position with no coordinate, else the table's length.
fn first_out(coords: &[i32]) -> usize
    ensures value { result ≡ least (length coords.now) (out_of_range coords.now) }
{
    for i in 0..coords.len() {
        if out_of_range(coords, i) {
            return i;
        }
    }
    coords.len()
}

// Refusal 2 (CHECK-7, AREA-4).
pub fn range_test(coords: &[i32]) -> Result<(), Refusal>
    ensures told { tell_verdict result ≡ test (range coords.now) }
{
    if all_in_range(coords) {
        return Ok(());
    }
    let i = first_out(coords);
    if i < coords.len() {
        return Err(Refusal::Range(i));
    }
    Ok(())
}

// Whether each corner names one of at most 32,768 vertices: a pass that returns at its end only, and so tests several at once.
fn all_named(vertices: usize, corners: &[u32]) -> bool
    ensures sound { result ≡ true → Nowhere (vertex vertices corners.now) }
{
    if MOST_VERTICES < vertices {
        return false;
    }
    let end = vertices as u32;
    let mut fine = true;
    for c in corners {
        fine = fine & (*c < end);
    }
    fine
}

// The least corner that names no vertex, else the number of corners.
fn first_stray(vertices: usize, corners: &[u32]) -> usize
    ensures value { result ≡ least (length corners.now) (names_none vertices corners.now) }
{
    for c in 0..corners.len() {
        if names_none(vertices, corners, c) {
            return c;
        }
    }
    corners.len()
}

// Refusal 3 (CHECK-8).
pub fn vertex_test(vertices: usize, corners: &[u32]) -> Result<(), Refusal>
    ensures told { tell_verdict result ≡ test (vertex vertices corners.now) }
{
    if all_named(vertices, corners) {
        return Ok(());
    }
    let c = first_stray(vertices, corners);
    if c < corners.len() {
        return Err(Refusal::Vertex(c));
    }
    Ok(())
}

// The least triangle that names a vertex twice, else the number of triangles.
fn first_degenerate(corners: &[u32]) -> usize
    ensures value { result ≡ least (triangle_count corners.now) (names_twice corners.now) }
{
    let n = corners.len() / 3;
    for t in 0..n {
        if names_twice(corners, t) {
            return t;
        }
    }
    n
}

// Refusal 4 (CHECK-9).
pub fn triangle_test(corners: &[u32]) -> Result<(), Refusal>
    ensures told { tell_verdict result ≡ test (triangle corners.now) }
{
    let t = first_degenerate(corners);
    if t < corners.len() / 3 {
        return Err(Refusal::Triangle(3 * t));
    }
    Ok(())
}

// Refusals 2, 3 and 4.
pub fn mesh_test(coords: &[i32], corners: &[u32]) -> Result<(), Refusal>
    ensures told { tell_verdict result ≡ verdict (mesh_tests (mesh coords.now corners.now)) }
{
    range_test(coords)?;
    vertex_test(coords.len() / 3, corners)?;
    triangle_test(corners)
}
