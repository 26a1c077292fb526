// The layer of a mesh that the tests have passed.
ghost use Rattle.std.specs.Prelude.{length};
ghost use Rattle.mesh.specs.Meshes.{mesh, paired};
ghost use Rattle.section.specs.Section.{Right};
ghost use Rattle.section.specs.Links.{trace_links};
ghost use Rattle.cut.specs.Cut.{lent, lengths_of, section};
ghost use Rattle.cut.specs.Outlines.{Long, Outlined, Traces};

use cut_points::unchecked_points::put_points;
use cut_trace::unchecked_rings::trace;
use mesh::Refusal;
use mesh::unchecked::fill;
use polygons::LayerCounts;
use section::unchecked_crossings::link_at;

// Writes the layer of height h, whose ring table is in marks.
pub fn outline_rings(
    coords: &[i32],
    corners: &[u32],
    h: i32,
    names: &mut [u32],
    points: &mut [i32],
    ends: &mut [u32],
    marks: &mut [u32],
) -> Result<LayerCounts, Refusal>
    requires fact_1 { Outlined (mesh coords.now corners.now) h marks.old }
    requires fact_2 { Long (length corners.now) (lengths_of (lent names.old points.old ends.old marks.old)) }
    ensures outcome { Traces (trace_links (length corners.now) marks.old)
        (mesh coords.now corners.now) h
        (lent names.old points.old ends.old marks.old) result
        (lent names.new points.new ends.new marks.new) }
{
    let n = corners.len();
    match trace(n, marks, names, ends) {
        Ok(counts) => {
            put_points(coords, corners, h, names, points, counts.points);
            Ok(counts)
        }
        Err(met) => {
            fill(points, 2 * n, 0);
            Err(Refusal::Used(met.at))
        }
    }
}

// The layer of height h.
pub fn slice(
    coords: &[i32],
    corners: &[u32],
    pairing: &[u32],
    h: i32,
    names: &mut [u32],
    points: &mut [i32],
    ends: &mut [u32],
    marks: &mut [u32],
) -> Result<LayerCounts, Refusal>
    requires fact_1 { Right (paired coords.now corners.now pairing.now) }
    requires fact_2 { Long (length corners.now) (lengths_of (lent names.old points.old ends.old marks.old)) }
    ensures outcome { Traces
        (section (paired coords.now corners.now pairing.now) h)
        (mesh coords.now corners.now) h
        (lent names.old points.old ends.old marks.old) result
        (lent names.new points.new ends.new marks.new) }
{
    link_at(coords, corners, pairing, h, marks);
    outline_rings(coords, corners, h, names, points, ends, marks)
}
