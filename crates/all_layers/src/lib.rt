// All layers: the layer file of a mesh at rising heights.
#![tactic(auto)]

ghost use Rattle.std.specs.Prelude.{◌≡◌};
ghost use Rattle.mesh.specs.Meshes.{ordered};
ghost use Rattle.mesh.specs.Operation.{verdict};
ghost use Rattle.mesh.specs.Refusals.{tell_verdict};
ghost use Rattle.cut.specs.Cut.{lengths};
ghost use Rattle.all_sweep.specs.AllLayers.{work, work_room_for, layers_tests, Files};

use crate::unchecked::{clear_work, put_file};
use all_active::unchecked_levels::Levels;
use all_heights::{base_z, few_heights, heights_test, taken_count};
use cleaning::Profile;
use cut::cut_room_for;
use mesh::Refusal;
use mesh_tables::MeshTest;
use mesh_tables::tests::opening_test;
use mesh_tables::unchecked_tests::one_mesh_test;

pub mod unchecked;

// Whether work tables of these lengths have the entries that n corners ask for (ALL-9).
fn work_room_for(
    n: usize,
    names: usize,
    points: usize,
    ends: usize,
    marks: usize,
    ring: usize,
) -> bool
    ensures value { result ≡ work_room_for n (lengths names points ends marks) ring }
{
    cut_room_for(n, names, points, ends, marks) && n <= ring
}

// All refusals but 16 and 14, for lent tables of these lengths (ALL-7).
fn layers_test(
    coords: &[i32],
    corners: &[u32],
    pairing: &[u32],
    order: &[u32],
    heights: &[i32],
    names: usize,
    points: usize,
    ends: usize,
    marks: usize,
    ring: usize,
) -> Result<(), Refusal>
    ensures told { tell_verdict result ≡ verdict (layers_tests
        (ordered coords.now corners.now pairing.now order.now)
        heights.now (lengths names points ends marks) ring) }
{
    let few = few_heights(coords, heights);
    let room = work_room_for(corners.len(), names, points, ends, marks, ring);
    opening_test(coords, corners, pairing, few, room)?;
    one_mesh_test(MeshTest::Order, coords, corners, pairing, order)?;
    heights_test(heights)
}

// All layers: writes the layer file of the heights given, or of the default ones (ALL-1 to ALL-15), with its layers in the profile (ALLCLEAN-1).
pub fn all_layers(
    profile: Profile,
    coords: &[i32],
    corners: &[u32],
    pairing: &[u32],
    order: &[u32],
    heights: &[i32],
    names: &mut [u32],
    points: &mut [i32],
    ends: &mut [u32],
    marks: &mut [u32],
    ring: &mut [u32],
    output: &mut [u8],
) -> Result<usize, Refusal>
    ensures outcome { Files profile
        (ordered coords.now corners.now pairing.now order.now)
        heights.now
        (work names.old points.old ends.old marks.old ring.old)
        output.old result
        (work names.new points.new ends.new marks.new ring.new)
        output.new }
{
    layers_test(
        coords,
        corners,
        pairing,
        order,
        heights,
        names.len(),
        points.len(),
        ends.len(),
        marks.len(),
        ring.len(),
    )?;
    let low = base_z(coords, heights);
    let count = taken_count(coords, heights);
    let levels = Levels {
        low,
        given: heights,
        count,
    };
    let f = put_file(
        profile, coords, corners, pairing, levels, names, points, ends, marks, ring, output,
    );
    clear_work(corners.len(), names, points, ends, marks, ring);
    f
}
