// The heights that All layers takes: those given, else the default, and the refusals 1 and 12 that are about heights.
#![tactic(auto)]

ghost use Rattle.std.specs.Prelude.{◌≡◌, ◌<◌, leb, length};
ghost use Rattle.laws.specs.Least.{least};
ghost use Rattle.mesh.specs.Operation.{test};
ghost use Rattle.mesh.specs.Refusals.{tell_verdict};
ghost use Rattle.file_formats.specs.LayerFile.{most_layers};
ghost use Rattle.all_heights.specs.Taking.{base_z};
ghost use Rattle.all_heights.specs.Heights.{lowest_z, highest_z, default_count, heights_taken, not_above_last, falling_height};

use crate::unchecked::not_above_last;
use file_formats::MOST_LAYERS;
use mesh::Refusal;

pub mod unchecked;

// The first default height above the lowest z, and how far each is from the next (ALL-4).
const FIRST_OFFSET: usize = 50;

const SPACING: usize = 100;

// The lowest and the highest z.
#[derive(Clone, Copy, Debug, PartialEq, Eq)]
pub struct Span {
    pub low: i32,
    pub high: i32,
}

// The lowest and the highest z of all vertices, 0 where there are none.
pub fn z_span(coords: &[i32]) -> Span
    ensures result { (result.low ≡ lowest_z coords.now) × (result.high ≡ highest_z coords.now) }
{
    let n = coords.len() / 3;
    if n == 0 {
        return Span { low: 0, high: 0 };
    }
    let mut low = coords[2];
    let mut high = low;
    for v in 0..n {
        let z = coords[3 * v + 2];
        low = low.min(z);
        high = high.max(z);
    }
    Span { low, high }
}

// The z above which the default heights lie. Heights that are given need none: it is 0 then, and no vertex is looked at.
pub fn base_z(coords: &[i32], heights: &[i32]) -> i32
    ensures value { result ≡ base_z coords.now heights.now }
{
    if heights.is_empty() {
        z_span(coords).low
    } else {
        0
    }
}

// How many default heights there are.
fn default_count(coords: &[i32]) -> usize
    ensures value { result ≡ default_count coords.now }
{
    if coords.len() / 3 == 0 {
        return 0;
    }
    let s = z_span(coords);
    let d = s.high.abs_diff(s.low) as usize;
    (d + (SPACING - FIRST_OFFSET)) / SPACING
}

pub fn taken_count(coords: &[i32], heights: &[i32]) -> usize
    ensures value { result ≡ length (heights_taken coords.now heights.now) }
{
    if heights.is_empty() {
        default_count(coords)
    } else {
        heights.len()
    }
}

// Whether not too many heights are taken (ALL-8).
pub fn few_heights(coords: &[i32], heights: &[i32]) -> bool
    ensures value { result ≡ leb (length (heights_taken coords.now heights.now)) most_layers }
{
    taken_count(coords, heights) <= MOST_LAYERS
}

// The position of the first height not above its forerunner, else the number of heights.
fn first_falling(heights: &[i32]) -> usize
    ensures value { result ≡ least (length heights.now) (not_above_last heights.now) }
{
    for i in 0..heights.len() {
        if not_above_last(heights, i) {
            return i;
        }
    }
    heights.len()
}

// Refusal 12 of All layers (ALL-10).
pub fn heights_test(heights: &[i32]) -> Result<(), Refusal>
    ensures told { tell_verdict result ≡ test (falling_height heights.now) }
{
    let i = first_falling(heights);
    if i < heights.len() {
        return Err(Refusal::Height(i));
    }
    Ok(())
}
