// The file of a mesh and heights that the tests have passed, and the work tables cleared after it.
ghost use Rattle.std.specs.Prelude.{◌≤◌, length};
ghost use Rattle.mesh.specs.Corners.{most_corners};
ghost use Rattle.mesh.specs.Meshes.{paired};
ghost use Rattle.cut.specs.Cut.{lent, lengths_of};
ghost use Rattle.cut.specs.Outlines.{Long};
ghost use Rattle.all_sweep.specs.AllLayers.{work};
ghost use Rattle.all_sweep.specs.Works.{Works, Zeroed, PutsFile, taken, taken_file};
ghost use Rattle.all_sweep.specs.Sweeps.{LayersTested};

use all_active::unchecked_levels::Levels;
use all_output::unchecked::put_layers;
use cleaning::Profile;
use file_formats::MOST_LAYERS;
use mesh::Refusal;
use mesh::unchecked::fill;

// Writes the layer file in the profile, unless the output is shorter.
pub fn put_file(
    profile: Profile,
    coords: &[i32],
    corners: &[u32],
    pairing: &[u32],
    levels: Levels<'_>,
    names: &mut [u32],
    points: &mut [i32],
    ends: &mut [u32],
    marks: &mut [u32],
    ring: &mut [u32],
    output: &mut [u8],
) -> Result<usize, Refusal>
    requires { LayersTested (paired coords.now corners.now pairing.now) (taken levels)
        (work names.old points.old ends.old marks.old ring.old) }
    ensures outcome { PutsFile (taken_file profile
        (paired coords.now corners.now pairing.now)
        (taken levels.entry)) output.old result output.new }
    ensures work { Works (length corners.now)
        (work names.old points.old ends.old marks.old ring.old)
        (work names.new points.new ends.new marks.new ring.new) }
{
    let mut heads = [0u32; MOST_LAYERS];
    put_layers(
        profile, coords, corners, pairing, levels, names, points, ends, marks, ring, &mut heads,
        output,
    )
}

// Zeroes the entries of the work tables that n corners ask for.
pub fn clear_work(
    n: usize,
    names: &mut [u32],
    points: &mut [i32],
    ends: &mut [u32],
    marks: &mut [u32],
    ring: &mut [u32],
)
    requires fact_1 { Long n (lengths_of (lent names.old points.old ends.old marks.old)) }
    requires fact_2 { n ≤ length ring.old }
    requires fact_3 { n ≤ most_corners }
    ensures left { Zeroed n
        (work names.old points.old ends.old marks.old ring.old)
        (work names.new points.new ends.new marks.new ring.new) }
{
    fill(names, n, 0);
    fill(points, 2 * n, 0);
    fill(ends, n, 0);
    fill(marks, n, 0);
    fill(ring, n, 0);
}
