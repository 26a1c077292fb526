// Charging layers, one by one as the file is checked: each `requires` says that the thickness is not above the most.
ghost use Rattle.std.specs.Prelude.{◌≡◌, ◌≤◌, length};
ghost use Rattle.file_formats.specs.LayerFile.{most_layers, layers_of};
ghost use Rattle.ink.specs.Charges.{layer_charge};
ghost use Rattle.ink.specs.Inking.{most_thickness};
ghost use Rattle.ink.specs.Steps.{charges_at, charge_of};

use cleaning::Profile;
use file_check::unchecked_position::check_layer;
use file_formats::numbers::read_number;
use file_formats::{Broken, MOST_LAYERS};

// A nanolitre in cubic micrometres, doubled as areas are.
const DOUBLED_NANOLITRE: u64 = 2000000;

// A layer's charge, where its doubled areas come to so much. The whole nanolitres of one micrometre and what is left over are multiplied apart, so that
// no product needs more than 64 bits.
fn layer_charge(area: i64, thickness: u64) -> u64
    requires { thickness ≤ most_thickness }
    ensures value { result ≡ layer_charge thickness area }
{
    if area < 0 {
        return 0;
    }
    let s = area as u64;
    let whole = s / DOUBLED_NANOLITRE * thickness;
    let rest = s % DOUBLED_NANOLITRE * thickness;
    whole + rest.div_ceil(DOUBLED_NANOLITRE)
}

// Checks so many layers, the first of a file, and adds up what they are charged: with that the position after them.
fn charge_layers(file: &[u8], at: usize, count: u64, thickness: u64) -> Result<(u64, usize), Broken>
    requires { (at ≤ length file.now) × (count ≤ most_layers) × (thickness ≤ most_thickness) }
    ensures value { result ≡ charges_at thickness count file.now at }
{
    let mut charge: u64 = 0;
    let mut last: i64 = -2147483649;
    let mut i = at;
    for _ in 0..count {
        let l = check_layer(Profile::Full, file, i, last)?;
        charge += layer_charge(l.area, thickness);
        i = l.at;
        last = l.height;
    }
    Ok((charge, i))
}

// Checks a file to its end, and adds up what its layers are charged.
pub fn charge_file(file: &[u8], thickness: u64) -> Result<u64, Broken>
    requires { thickness ≤ most_thickness }
    ensures value { result ≡ charge_of thickness (layers_of file.now) }
{
    let (count, start) = read_number(file, 0, MOST_LAYERS as u64)?;
    let (charge, end) = charge_layers(file, start, count, thickness)?;
    if end < file.len() {
        return Err(Broken { at: end });
    }
    Ok(charge)
}
