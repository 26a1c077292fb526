// The way to one layer of a file, which checks all others too, and what fills the lent tables from it.
ghost use Rattle.std.specs.Prelude.{◌≡◌, suc, ◌≤◌, length};
ghost use Rattle.file_formats.specs.LayerFile.{lowest};
ghost use Rattle.cleaning.specs.declared.Profile.TheVariants.{Full};
ghost use Rattle.polygons.specs.Flat.{flat};
ghost use Rattle.read_layer.specs.Places.{last_layers, Searched, broken_told, FillPoints, FilledPoints, FillLayer, filled_layer};

use crate::LayerPlace;
use cleaning::Profile;
use file_check::unchecked_position::{
    check_counted, check_last, check_layers, read_coordinate, read_height,
};
use file_formats::numbers::read_number;
use file_formats::{Broken, LARGEST_WORD};
use mesh::Refusal;
use mesh::limits::MOST_POINTS_64;

// Checks the last layers of a file, one and so many more, the first of which must lie above low; and tells where the first stands.
fn check_from(
    profile: Profile,
    file: &[u8],
    at: usize,
    more: u64,
    low: i64,
) -> Result<Option<LayerPlace>, Broken>
    requires { at ≤ length file.now }
    ensures result { Searched file.now 0 (last_layers profile (suc more) low file.now at) result }
{
    let (height, j) = read_height(file, at, low)?;
    let c = check_counted(profile, file, j)?;
    check_last(profile, file, c.at, more, height)?;
    Ok(Some(LayerPlace {
        height,
        at: j,
        contours: c.contours,
        points: c.points,
    }))
}

// Checks the layers of a file after their count, and tells where layer i stands, if there is one.
pub fn find_layer(
    profile: Profile,
    file: &[u8],
    at: usize,
    count: u64,
    i: u64,
) -> Result<Option<LayerPlace>, Broken>
    requires { at ≤ length file.now }
    ensures result { Searched file.now i (last_layers profile count lowest file.now at) result }
{
    if i < count {
        let b = check_layers(profile, file, at, i, -2147483649)?;
        return check_from(profile, file, b.at, count - i - 1, b.height);
    }
    check_last(profile, file, at, count, -2147483649)?;
    Ok(None)
}

// What is refused of a file that breaks at e in the profile. In the clean one it is read again as a full file: 13 where that breaks, else 18 at e.
pub fn refusal_at(profile: Profile, file: &[u8], at: usize, count: u64, e: usize) -> Refusal
    requires { at ≤ length file.now }
    ensures value { result ≡ broken_told profile file.now
        (last_layers Full count lowest file.now at) e }
{
    match profile {
        Profile::Full => Refusal::File(e),
        Profile::Clean => match check_last(Profile::Full, file, at, count, -2147483649) {
            Ok(_) => Refusal::Unclean(e),
            Err(b) => Refusal::File(b.at),
        },
    }
}

// Writes the points of a contour to a table, from an entry on, and returns the position after them in the file.
fn fill_points(file: &[u8], at: usize, count: u64, points: &mut [i32], from: usize) -> usize
    requires { FillPoints file.now at count points.old from }
    ensures outcome { FilledPoints file.now at count points.old from result
        points.new }
{
    let mut x: i32 = 0;
    let mut y: i32 = 0;
    let mut i = at;
    let mut k = from;
    for _ in 0..count {
        let (nx, j) = read_coordinate(file, i, x).unwrap();
        let (ny, next) = read_coordinate(file, j, y).unwrap();
        points[k] = nx;
        points[k + 1] = ny;
        x = nx;
        y = ny;
        i = next;
        k += 2;
    }
    i
}

// Writes the contours of a layer to the two tables, from their first entries on.
pub fn fill_layer(file: &[u8], at: usize, points: &mut [i32], ends: &mut [u32])
    requires { FillLayer file.now at (flat points.old ends.old) }
    ensures left { flat points.new ends.new
        ≡ filled_layer file.now at (flat points.old ends.old) }
{
    let (count, start) = read_number(file, at, LARGEST_WORD).unwrap();
    let mut i = start;
    let mut done: u64 = 0;
    for c in 0..count {
        let (k, next) = read_number(file, i, MOST_POINTS_64 - done).unwrap();
        i = fill_points(file, next, k, points, (2 * done) as usize);
        done += k;
        ends[c as usize] = done as u32;
    }
}
