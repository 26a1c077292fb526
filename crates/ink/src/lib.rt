// Ink: what a layer file is charged, in whole nanolitres for each layer of a thickness.
#![tactic(auto)]

ghost use Rattle.std.specs.Prelude.{◌≡◌};
ghost use Rattle.ink.specs.Inking.{thickness_fits, Inks};

use crate::unchecked::charge_file;
use mesh::Refusal;

mod unchecked;

// The least and the most thickness of a layer, in micrometres (LIMIT-13).
const LEAST_THICKNESS: u32 = 1;

const MOST_THICKNESS: u32 = 1000;

// Whether a layer may be so thick (INK-6).
#[tactic(auto, unfolding(crate::specs::Inking::thickness_fits))]
fn thickness_fits(thickness: u32) -> bool
    ensures value { result ≡ thickness_fits thickness }
{
    LEAST_THICKNESS <= thickness && thickness <= MOST_THICKNESS
}

// The charge of the layers of a file (INK-1 to INK-7). It is checked as a whole also where the thickness is refused.
pub fn ink(file: &[u8], thickness: u32) -> Result<u64, Refusal>
    ensures outcome { Inks file.now thickness result }
{
    let fits = thickness_fits(thickness);
    let t = if fits { u64::from(thickness) } else { 0 };
    let charge = charge_file(file, t)?;
    if !fits {
        return Err(Refusal::Thickness(0));
    }
    Ok(charge)
}
