// Clean: a layer that is handed in, cleaned into two lent tables.
#![tactic(auto)]

ghost use Rattle.polygons.specs.Flat.{flat};
ghost use Rattle.clean.specs.Clean.{Cleans};

use clean_layers::unchecked::copy_layer;
use mesh::Refusal;
use polygons::{LayerCounts, layer_test};

// Tests a layer and the tables for it, then fills their first entries with the cleaned layer and counts it (CLEAN-6 to CLEAN-10).
pub fn clean(
    points: &[i32],
    ends: &[u32],
    cleanpoints: &mut [i32],
    cleanends: &mut [u32],
) -> Result<LayerCounts, Refusal>
    ensures outcome { Cleans (flat points.now ends.now)
        (flat cleanpoints.old cleanends.old) result
        (flat cleanpoints.new cleanends.new) }
{
    layer_test(points, ends)?;
    if cleanpoints.len() < points.len() || cleanends.len() < ends.len() {
        return Err(Refusal::Room(0));
    }
    let counts = copy_layer(points, ends, cleanpoints, cleanends);
    Ok(counts)
}
