// Preview of a layer: the calls with which a screen draws it, after a plate's origin has been added.
#![tactic(auto)]

ghost use Rattle.std.specs.Prelude.{◌≡◌};
ghost use Rattle.mesh.specs.Operation.{verdict};
ghost use Rattle.mesh.specs.Refusals.{tell_verdict};
ghost use Rattle.polygons.specs.Flat.{flat};
ghost use Rattle.preview.specs.Preview.{preview_tests, Previews, call_tables, PreviewsRun};
ghost use Rattle.preview.specs.Places.{Belongs};

use crate::unchecked::{call_at, fill_calls};
use mesh::Refusal;
use polygons::layer_test;
use preview_floats::{Origin, whole_origin};

pub mod unchecked;

// A call of a screen: move to a point, line to a point, close.
#[derive(Clone, Copy, Debug, PartialEq)]
pub enum PathCall {
    Move(f32, f32),
    Line(f32, f32),
    Close,
}

// Refusals 17, 1 and 2 (PREVIEW-6).
fn preview_test(points: &[i32], ends: &[u32], origin: Origin) -> Result<(), Refusal>
    ensures told { tell_verdict result ≡ verdict
        (preview_tests (flat points.now ends.now) origin) }
{
    if !whole_origin(origin) {
        return Err(Refusal::Origin(0));
    }
    layer_test(points, ends)
}

// The contour that has a call, by halves; past the last call the number of contours.
pub fn contour_with(ends: &[u32], number: usize) -> usize
    ensures result { Belongs ends.now number result }
{
    let mut a: usize = 0;
    let mut b = ends.len();
    // Halved here: the test of `partition_point` is handed the end alone, and this one needs its position too.
    while a < b {
        let m = a + (b - a) / 2;
        if ends[m] as usize + m < number {
            a = m + 1;
        } else {
            b = m;
        }
    }
    a
}

// The call of a number that draws a layer, after the origin has been added; past the last there is none (PREVIEW-1 to PREVIEW-7).
pub fn preview(
    points: &[i32],
    ends: &[u32],
    origin: Origin,
    number: usize,
) -> Result<Option<PathCall>, Refusal>
    ensures outcome { Previews (flat points.now ends.now) origin number result }
{
    preview_test(points, ends, origin)?;
    Ok(call_at(points, ends, origin, number))
}

// A run of calls from `number` on, after testing once; returns how many were filled (PREVIEW-8 to PREVIEW-11).
pub fn preview_run(
    points: &[i32],
    ends: &[u32],
    origin: Origin,
    number: usize,
    kinds: &mut [u8],
    floats: &mut [f32],
) -> Result<usize, Refusal>
    ensures outcome { PreviewsRun (flat points.now ends.now) origin number
        (call_tables kinds.old floats.old) result
        (call_tables kinds.new floats.new) }
{
    preview_test(points, ends, origin)?; // before the tables are written (PREVIEW-11)
    Ok(fill_calls(points, ends, origin, number, kinds, floats))
}
