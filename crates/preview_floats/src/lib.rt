// Floats that are whole numbers, and where a point is drawn after a plate's origin has been added.
#![tactic(auto)]

ghost use Rattle.std.specs.Prelude.{◌≡◌};
ghost use Rattle.preview_floats.specs.WholeFloats.{is_whole};
ghost use Rattle.preview_floats.specs.DrawnPoints.{whole_origin};

use mesh::limits::{LARGEST_COORDINATE_F32, LEAST_COORDINATE_F32};
use std::num::truncating_f32_to_i64;

pub mod unchecked;

// Where a plate's origin is drawn.
#[derive(Clone, Copy, Debug, PartialEq)]
pub struct Origin {
    pub x: f32,
    pub y: f32,
}

// Where a point is drawn.
#[derive(Clone, Copy, Debug, PartialEq)]
pub struct DrawnPoint {
    pub x: f32,
    pub y: f32,
}

// Whether a float is a whole number from -1,048,576 to 1,048,576 (PREVIEW-7).
fn is_whole(x: f32) -> bool
    ensures value { result ≡ is_whole x }
{
    x >= LEAST_COORDINATE_F32 && x <= LARGEST_COORDINATE_F32 && truncating_f32_to_i64(x) as f32 == x
}

// Whether both coordinates of an origin are such numbers.
pub fn whole_origin(origin: Origin) -> bool
    ensures value { result ≡ whole_origin origin }
{
    is_whole(origin.x) && is_whole(origin.y)
}
