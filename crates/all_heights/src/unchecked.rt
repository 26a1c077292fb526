// Heights by number: one that is taken, and whether one is not above its forerunner.
ghost use Rattle.std.specs.Prelude.{◌≡◌, ◌<◌, length};
ghost use Rattle.all_heights.specs.Taking.{height_at, Takable};
ghost use Rattle.all_heights.specs.Heights.{not_above_last};

use crate::{FIRST_OFFSET, SPACING};

// Height k of those taken, where low is the lowest z.
pub fn taken_height(low: i32, heights: &[i32], k: usize) -> i32
    requires { Takable low heights.now k }
    ensures value { result ≡ height_at low heights.now k }
{
    if !heights.is_empty() {
        return heights[k];
    }
    let above = (FIRST_OFFSET + SPACING * k) as i64;
    (i64::from(low) + above) as i32
}

// Whether height i has a forerunner and is not above it.
pub fn not_above_last(heights: &[i32], i: usize) -> bool
    requires { i < length heights.now }
    ensures value { result ≡ not_above_last heights.now i }
{
    0 < i && heights[i] <= heights[i - 1]
}
