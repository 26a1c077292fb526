// The listing of a part file: what the listing program writes, as a function of its input.
#![tactic(auto)]

ghost use Rattle.list_part.specs.Listing.{Lists};

use crate::unchecked::list_with;

pub mod unchecked;

// An output of so many bytes has room for every listing.
pub const MOST_OUTPUT: usize = 23580;

// Writes the listing of a part file, or the line of its refusal, into the front of an output (LIST-2 to LIST-8), and returns how many bytes that is.
// None: the output is too short to be written to.
pub fn list(input: &[u8], output: &mut [u8]) -> Option<usize>
    ensures outcome { Lists input.now output.old result output.new }
{
    if output.len() < MOST_OUTPUT {
        return None;
    }
    let mut coords = [0i32; 768];
    let mut corners = [0u32; 768];
    let mut heights = [0i32; 768];
    let mut pairing = [0u32; 768];
    let mut order = [0u32; 768];
    let mut names = [0u32; 768];
    let mut points = [0i32; 1536];
    let mut ends = [0u32; 768];
    let mut marks = [0u32; 768];
    let n = list_with(
        input,
        &mut coords,
        &mut corners,
        &mut heights,
        &mut pairing,
        &mut order,
        &mut names,
        &mut points,
        &mut ends,
        &mut marks,
        output,
    );
    Some(n)
}
