// Read layer, in the full profile and the clean one: checks a whole layer file, and fills two lent tables with the points and the ends of one of its layers.
#![tactic(auto)]

ghost use Rattle.std.specs.Prelude.{◌≡◌};
ghost use Rattle.polygons.specs.Flat.{flat};
ghost use Rattle.read_layer.specs.Reading.{entries, read_layer_room_for, ReadsLayer};
ghost use Rattle.read_layer.specs.Places.{Located};

use crate::unchecked::{fill_layer, find_layer, refusal_at};
use cleaning::Profile;
use file_formats::MOST_LAYERS;
use file_formats::numbers::read_number;
use mesh::Refusal;
use polygons::LayerCounts;

mod unchecked;

// What was read of a layer: the layer count of its file, its height, and its counts of contours and points.
#[derive(Clone, Copy, Debug, PartialEq, Eq)]
pub struct LayerRead {
    pub layers: usize,
    pub height: i32,
    pub counts: LayerCounts,
}

// A layer in a file: its height, the position after that, and its counts of contours and points.
#[derive(Clone, Copy)]
struct LayerPlace {
    height: i64,
    at: usize,
    contours: u64,
    points: u64,
}

// Whether tables of these lengths have two entries for each of so many points, and one for each contour.
#[tactic(auto, unfolding(crate::specs::Reading::read_layer_room_for))]
fn read_layer_room_for(contours: u64, count: u64, points: u64, ends: u64) -> bool
    ensures value { result ≡ read_layer_room_for contours count (entries points ends) }
{
    count <= points / 2 && contours <= ends
}

// The layer count and the layer that is to be read, or refusal 13, in the clean profile 18, 15 or 9, for tables of these lengths (READ-5, READCLEAN-2).
// An accepted file is read once.
fn locate(
    profile: Profile,
    file: &[u8],
    i: u64,
    points: u64,
    ends: u64,
) -> Result<(u64, LayerPlace), Refusal>
    ensures result { Located profile file.now i (entries points ends) result }
{
    let (count, start) = read_number(file, 0, MOST_LAYERS as u64)?;
    let found = match find_layer(profile, file, start, count, i) {
        Ok(found) => found,
        Err(b) => return Err(refusal_at(profile, file, start, count, b.at)),
    };
    let Some(p) = found else {
        return Err(Refusal::Layer(0));
    };
    if read_layer_room_for(p.contours, p.points, points, ends) {
        return Ok((count, p));
    }
    Err(Refusal::Room(0))
}

// Checks the whole file, in the profile, then fills the first entries of the lent
// tables with the points and the ends of layer i (READ-1 to READ-11, READCLEAN-1 to READCLEAN-3).
pub fn read_layer(
    profile: Profile,
    file: &[u8],
    i: usize,
    points: &mut [i32],
    ends: &mut [u32],
) -> Result<LayerRead, Refusal>
    ensures outcome { ReadsLayer profile file.now i
        (flat points.old ends.old) result
        (flat points.new ends.new) }
{
    let (layers, p) = locate(
        profile,
        file,
        i as u64,
        points.len() as u64,
        ends.len() as u64,
    )?;
    fill_layer(file, p.at, points, ends);
    Ok(LayerRead {
        layers: layers as usize,
        height: p.height as i32,
        counts: LayerCounts {
            contours: p.contours as usize,
            points: p.points as usize,
        },
    })
}
