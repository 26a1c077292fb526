// The file of a mesh and heights that the tests have passed, in a profile, put into the output, or the output found too short.
ghost use Rattle.std.specs.Prelude.{◌≡◌, ◌*◌, ◌≤◌, false, ltb, length};
ghost use Rattle.mesh.specs.Corners.{most_corners};
ghost use Rattle.mesh.specs.Meshes.{mesh, paired};
ghost use Rattle.file_formats.specs.Numbers.{encode_number, zigzag};
ghost use Rattle.file_formats.specs.LayerFile.{most_layers};
ghost use Rattle.all_sweep.specs.AllLayers.{work};
ghost use Rattle.all_sweep.specs.Works.{Works, PutsFile, taken, taken_file};
ghost use Rattle.all_sweep.specs.Sweeps.{LayersTested, corner_lists, Sweeping};
ghost use Rattle.all_output.specs.Bounds.{longest_file};

use all_active::unchecked_levels::Levels;
use all_sweep::unchecked_sweep::{begin, layers_length, write_layers};
use cleaning::Profile;
use file_formats::numbers::{number_length, unsigned_of};
use mesh::Refusal;

// How many bytes a height takes.
fn height_length(h: i32) -> usize
    ensures result { (result ≡ length (encode_number (zigzag h))) × (result ≤ 5) }
{
    number_length(unsigned_of(i64::from(h)))
}

// How many bytes the layer file takes at most, by how many crossings all heights have.
fn longest(levels: Levels<'_>, crossings: usize) -> usize
    requires { crossings ≤ most_corners * most_layers }
    ensures value { result ≡ longest_file (taken levels.entry) crossings }
{
    let mut total = number_length(levels.count as u64) + 10 * crossings;
    for k in 0..levels.count {
        let h = levels.height(k);
        total += height_length(h) + 3;
    }
    total
}

// Whether the file, which is no longer than bound, is longer than room: it is measured where the bound is. Else the sweep is begun.
fn is_short(
    profile: Profile,
    coords: &[i32],
    corners: &[u32],
    pairing: &[u32],
    levels: Levels<'_>,
    names: &mut [u32],
    points: &mut [i32],
    ends: &mut [u32],
    marks: &mut [u32],
    ring: &mut [u32],
    heads: &mut [u32],
    bound: usize,
    room: usize,
) -> bool
    requires fact_1 { LayersTested (paired coords.now corners.now pairing.now) (taken levels)
        (work names.old points.old ends.old marks.old ring.old) }
    requires fact_2 { Sweeping (mesh coords.now corners.now) (taken levels) 0
        (corner_lists ring.old heads.old marks.old (length corners.now)) }
    requires fact_3 { length
        (taken_file profile (paired coords.now corners.now pairing.now) (taken levels))
        ≤ bound }
    ensures value { result ≡ ltb room
        (length (taken_file profile (paired coords.now corners.now pairing.now)
        (taken levels.entry))) }
    ensures work { Works (length corners.now)
        (work names.old points.old ends.old marks.old ring.old)
        (work names.new points.new ends.new marks.new ring.new) }
    ensures outcome { result ≡ false → Sweeping (mesh coords.now corners.now)
        (taken levels.entry) 0
        (corner_lists ring.new heads.new marks.new (length corners.now)) }
{
    if bound <= room {
        return false;
    }
    let n = layers_length(
        profile, coords, corners, pairing, levels, names, points, ends, marks, ring, heads,
    );
    if room < n {
        return true;
    }
    begin(coords, corners, levels, marks, ring, heads);
    false
}

// Writes the layer file, unless the output is shorter: that is known before the first byte is written. The heights have their lists in heads.
pub fn put_layers(
    profile: Profile,
    coords: &[i32],
    corners: &[u32],
    pairing: &[u32],
    levels: Levels<'_>,
    names: &mut [u32],
    points: &mut [i32],
    ends: &mut [u32],
    marks: &mut [u32],
    ring: &mut [u32],
    heads: &mut [u32],
    output: &mut [u8],
) -> Result<usize, Refusal>
    requires fact_1 { LayersTested (paired coords.now corners.now pairing.now) (taken levels)
        (work names.old points.old ends.old marks.old ring.old) }
    requires fact_2 { levels.count ≤ length heads.old }
    ensures outcome { PutsFile (taken_file profile
        (paired coords.now corners.now pairing.now)
        (taken levels.entry)) output.old result output.new }
    ensures work { Works (length corners.now)
        (work names.old points.old ends.old marks.old ring.old)
        (work names.new points.new ends.new marks.new ring.new) }
{
    let crossings = begin(coords, corners, levels, marks, ring, heads);
    let bound = longest(levels, crossings);
    let short = is_short(
        profile,
        coords,
        corners,
        pairing,
        levels,
        names,
        points,
        ends,
        marks,
        ring,
        heads,
        bound,
        output.len(),
    );
    if short {
        return Err(Refusal::Output(0));
    }
    Ok(write_layers(
        profile, coords, corners, pairing, levels, names, points, ends, marks, ring, heads, output,
    ))
}
