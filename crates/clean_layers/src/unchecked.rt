// Layers of tables that hold one, as each `requires` says, cleaned.
ghost use Rattle.std.specs.Prelude.{take};
ghost use Rattle.file_write.specs.LayerTables.{LayerTables};
ghost use Rattle.polygons.specs.Flat.{flat, polygons_of};
ghost use Rattle.cleaning.specs.Cleaning.{cleaned};
ghost use Rattle.clean_layers.specs.Layers.{Fills, CleanTables, LeftIn};

use clean_contour::unchecked::{copy_contour, move_contour};
use cleaning::Profile;
use polygons::LayerCounts;

// Cleans a layer, contour by contour in order, into two other tables (CLEAN-4).
pub fn copy_layer(
    points: &[i32],
    ends: &[u32],
    cleanpoints: &mut [i32],
    cleanends: &mut [u32],
) -> LayerCounts
    requires { CleanTables (flat points.now ends.now) (flat cleanpoints.old cleanends.old) }
    ensures outcome { Fills (cleaned (polygons_of (flat points.now ends.now)))
        (flat cleanpoints.old cleanends.old) result.contours result.points
        (flat cleanpoints.new cleanends.new) }
{
    let mut from: usize = 0;
    let mut at: usize = 0;
    let mut kept: usize = 0;
    for &end in ends {
        let end = end as usize;
        let next = copy_contour(points, from, end, cleanpoints, at);
        from = end;
        if at < next {
            cleanends[kept] = next as u32;
            kept += 1;
            at = next;
        }
    }
    LayerCounts {
        contours: kept,
        points: at,
    }
}

// Cleans a layer of so many contours where it stands (CLEAN-4): one borrow for what `copy_layer` has in two.
fn move_layer(points: &mut [i32], ends: &mut [u32], contours: usize) -> LayerCounts
    requires { LayerTables points.old ends.old contours }
    ensures outcome { Fills
        (cleaned (polygons_of (flat points.old (take contours ends.old))))
        (flat points.old ends.old) result.contours result.points
        (flat points.new ends.new) }
{
    let mut from: usize = 0;
    let mut at: usize = 0;
    let mut kept: usize = 0;
    for j in 0..contours {
        let end = ends[j] as usize;
        let next = move_contour(points, from, end, at);
        from = end;
        if at < next {
            ends[kept] = next as u32;
            kept += 1;
            at = next;
        }
    }
    LayerCounts {
        contours: kept,
        points: at,
    }
}

// Brings a layer of so many contours into the profile, where it stands, and returns how many it has then.
pub fn bring_into(profile: Profile, points: &mut [i32], ends: &mut [u32], contours: usize) -> usize
    requires { LayerTables points.old ends.old contours }
    ensures outcome { LeftIn profile (flat points.old ends.old) contours result
        (flat points.new ends.new) }
{
    match profile {
        Profile::Full => contours,
        Profile::Clean => {
            let counts = move_layer(points, ends, contours);
            counts.contours
        }
    }
}
