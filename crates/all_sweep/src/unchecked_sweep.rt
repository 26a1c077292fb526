// The layers of rising heights one after another, for a mesh and heights that the tests have passed.
ghost use Rattle.std.specs.Prelude.{◌≡◌, ◌+◌, ◌<◌, ◌≤◌, length};
ghost use Rattle.laws.specs.Tables.{overwrite};
ghost use Rattle.mesh.specs.Meshes.{mesh, paired};
ghost use Rattle.section.specs.Section.{Right};
ghost use Rattle.cut.specs.Cut.{lent, lengths_of};
ghost use Rattle.cut.specs.Outlines.{Long};
ghost use Rattle.all_active.specs.LevelHeights.{level_at};
ghost use Rattle.all_active.specs.Totals.{CrossingTotal};
ghost use Rattle.all_sweep.specs.AllLayers.{work};
ghost use Rattle.all_sweep.specs.Works.{Spent, Works, HoldsLayer, taken, taken_file};
ghost use Rattle.all_sweep.specs.Sweeps.{Ranged, LayersTested, corner_lists, Sweeping};

use all_active::unchecked_levels::Levels;
use all_active::unchecked_lists::{advance, deal_lists};
use all_contours::unchecked_contours::outline_crossings;
use clean_layers::unchecked::bring_into;
use cleaning::Profile;
use cut_points::unchecked_points::put_points;
use file_formats::numbers::number_length;
use file_formats::unchecked::write_number;
use file_write::unchecked_layers::{layer_length, write_layer};

// Where the sweep stands after a height: the head of the list of its crossings, and the count of its contours.
#[derive(Clone, Copy)]
struct Level {
    active: usize,
    contours: usize,
}

// Begins the sweep: each corner that rises somewhere, without a mark, in the list of the first height at which it does;
// returns how many crossings all heights have.
pub fn begin(
    coords: &[i32],
    corners: &[u32],
    levels: Levels<'_>,
    marks: &mut [u32],
    ring: &mut [u32],
    heads: &mut [u32],
) -> usize
    requires fact_1 { Ranged (mesh coords.now corners.now) }
    requires fact_2 { (length corners.now ≤ length marks.old) × (length corners.now ≤ length ring.old)
        × (levels.count ≤ length heads.old) }
    ensures lists { Sweeping (mesh coords.now corners.now)
        (taken levels.entry) 0
        (corner_lists ring.new heads.new marks.new (length corners.now)) }
    ensures spent { Spent (length corners.now) marks.old marks.new
        × Spent (length corners.now) ring.old ring.new }
    ensures total { CrossingTotal coords.now corners.now
        (level_at levels.entry) levels.entry.count result }
{
    deal_lists(coords, corners, levels, ring, heads, marks)
}

// The layer of height k in the profile, put into the tables of points and ends.
fn next_layer(
    profile: Profile,
    coords: &[i32],
    corners: &[u32],
    pairing: &[u32],
    levels: Levels<'_>,
    k: usize,
    active: usize,
    heads: &[u32],
    names: &mut [u32],
    points: &mut [i32],
    ends: &mut [u32],
    marks: &mut [u32],
    ring: &mut [u32],
) -> Level
    requires fact_1 { Right (paired coords.now corners.now pairing.now) }
    requires fact_2 { Long (length corners.now) (lengths_of (lent names.old points.old ends.old marks.old)) }
    requires fact_3 { Sweeping (mesh coords.now corners.now) (taken levels) k
        (corner_lists ring.old heads.now marks.old active) }
    requires fact_4 { k < levels.count }
    ensures layer { HoldsLayer profile
        (paired coords.now corners.now pairing.now)
        (level_at levels.entry k) points.new ends.new result.contours }
    ensures work { Works (length corners.now)
        (work names.old points.old ends.old marks.old ring.old)
        (work names.new points.new ends.new marks.new ring.new) }
    ensures lists { Sweeping (mesh coords.now corners.now)
        (taken levels.entry) (k + 1)
        (corner_lists ring.new heads.now marks.new result.active) }
{
    let h = levels.height(k);
    let b = heads[k] as usize;
    let a = advance(coords, corners, h, ring, active, b);
    let s = (k + 1) as u32;
    let f = outline_crossings(coords, corners, pairing, h, s, ring, a, names, ends, marks);
    put_points(coords, corners, h, names, points, f.points);
    let contours = bring_into(profile, points, ends, f.contours);
    Level {
        active: a,
        contours,
    }
}

// How many bytes the layers in the profile take, the sweep begun.
pub fn layers_length(
    profile: Profile,
    coords: &[i32],
    corners: &[u32],
    pairing: &[u32],
    levels: Levels<'_>,
    names: &mut [u32],
    points: &mut [i32],
    ends: &mut [u32],
    marks: &mut [u32],
    ring: &mut [u32],
    heads: &[u32],
) -> usize
    requires fact_1 { LayersTested (paired coords.now corners.now pairing.now) (taken levels)
        (work names.old points.old ends.old marks.old ring.old) }
    requires fact_2 { Sweeping (mesh coords.now corners.now) (taken levels) 0
        (corner_lists ring.old heads.now marks.old (length corners.now)) }
    ensures value { result ≡ length (taken_file profile
        (paired coords.now corners.now pairing.now)
        (taken levels.entry)) }
    ensures work { Works (length corners.now)
        (work names.old points.old ends.old marks.old ring.old)
        (work names.new points.new ends.new marks.new ring.new) }
{
    let mut total = number_length(levels.count as u64);
    let mut active = corners.len();
    for k in 0..levels.count {
        let s = next_layer(
            profile, coords, corners, pairing, levels, k, active, heads, names, points, ends,
            marks, ring,
        );
        let h = levels.height(k);
        total += layer_length(h, points, ends, s.contours);
        active = s.active;
    }
    total
}

// Writes the layer file in the profile, the sweep begun, and returns its length.
pub fn write_layers(
    profile: Profile,
    coords: &[i32],
    corners: &[u32],
    pairing: &[u32],
    levels: Levels<'_>,
    names: &mut [u32],
    points: &mut [i32],
    ends: &mut [u32],
    marks: &mut [u32],
    ring: &mut [u32],
    heads: &[u32],
    output: &mut [u8],
) -> usize
    requires fact_1 { LayersTested (paired coords.now corners.now pairing.now) (taken levels)
        (work names.old points.old ends.old marks.old ring.old) }
    requires fact_2 { Sweeping (mesh coords.now corners.now) (taken levels) 0
        (corner_lists ring.old heads.now marks.old (length corners.now)) }
    requires fact_3 { length
        (taken_file profile (paired coords.now corners.now pairing.now) (taken levels))
        ≤ length output.old }
    ensures value { result ≡ length (taken_file profile
        (paired coords.now corners.now pairing.now)
        (taken levels.entry)) }
    ensures output_left { output.new ≡ overwrite (taken_file profile
        (paired coords.now corners.now pairing.now)
        (taken levels.entry)) output.old }
    ensures work { Works (length corners.now)
        (work names.old points.old ends.old marks.old ring.old)
        (work names.new points.new ends.new marks.new ring.new) }
{
    let mut p = write_number(output, 0, levels.count as u64);
    let mut active = corners.len();
    for i in 0..levels.count {
        let s = next_layer(
            profile, coords, corners, pairing, levels, i, active, heads, names, points, ends,
            marks, ring,
        );
        let h = levels.height(i);
        p = write_layer(h, points, ends, s.contours, output, p);
        active = s.active;
    }
    p
}
