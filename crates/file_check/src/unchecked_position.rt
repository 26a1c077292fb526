// Checking a part of a layer file, from a position in it on.
ghost use Rattle.std.specs.Prelude.{◌≡◌, ◌≤◌, length, nat_abs};
ghost use Rattle.mesh.specs.Corners.{largest, most_points};
ghost use Rattle.file_formats.specs.Formats.{sequence};
ghost use Rattle.file_formats.specs.LayerFile.{layer_format_in, height_of};
ghost use Rattle.file_formats.specs.Positions.{extent_at};
ghost use Rattle.file_check.specs.Answers.{coordinate_at, points_at, height_told_at, contour_told_at, contours_at, counts_at, layer_told_at, levels_at, final};

use crate::watch::{Unwatched, Watch};
use crate::{ContoursEnd, CountsEnd, LayerEnd, LevelsEnd, PointsEnd};
use area_sum::sum_none;
use area_sum::unchecked::{sum_closed, sum_point};
use clean_test::ContourSeen;
use cleaning::Profile;
use file_formats::numbers::{read_number, signed_of};
use file_formats::{Broken, LARGEST_WORD};
use mesh::limits::{LARGEST_COORDINATE_64, LEAST_COORDINATE_64, MOST_POINTS_64};

// The coordinate at a position of a file and the position after it, where `before` is that of the point before.
pub fn read_coordinate(file: &[u8], at: usize, before: i32) -> Result<(i32, usize), Broken>
    requires { nat_abs before ≤ largest }
    ensures value { result ≡ coordinate_at before file.now at }
{
    let (m, next) = read_number(file, at, LARGEST_WORD)?;
    let z = i64::from(before) + signed_of(m);
    if z < LEAST_COORDINATE_64 || LARGEST_COORDINATE_64 < z {
        return Err(Broken { at });
    }
    Ok((z as i32, next))
}

// Checks so many points of a contour, adds up its area and tells whether it may stand in the profile that the watch is for: a function of its own for
// each, as a test of the profile at each point would slow the full one.
fn check_watched<W: Watch>(file: &[u8], at: usize, count: u64) -> Result<PointsEnd, Broken>
    requires { (at ≤ length file.now) × (count ≤ most_points) }
    ensures value { result ≡ points_at W.profile count file.now at }
{
    let mut watch = W::watch_none();
    let mut sum = sum_none();
    let mut x: i32 = 0;
    let mut y: i32 = 0;
    let mut i = at;
    for _ in 0..count {
        let (nx, j) = read_coordinate(file, i, x)?;
        let (ny, k) = read_coordinate(file, j, y)?;
        watch = watch.pass(x, y, nx, ny);
        sum = sum_point(sum, x, y, nx, ny);
        x = nx;
        y = ny;
        i = k;
    }
    Ok(PointsEnd {
        at: i,
        fits: watch.fits(x, y),
        area: sum_closed(sum, x, y),
    })
}

// Checks so many points of a contour, and tells whether it may stand in a file of the profile, and its area.
pub fn check_points(
    profile: Profile,
    file: &[u8],
    at: usize,
    count: u64,
) -> Result<PointsEnd, Broken>
    requires { (at ≤ length file.now) × (count ≤ most_points) }
    ensures value { result ≡ points_at profile count file.now at }
{
    match profile {
        Profile::Full => check_watched::<Unwatched>(file, at, count),
        Profile::Clean => check_watched::<ContourSeen>(file, at, count),
    }
}

// Checks a contour, where its layer has room for so many points. One that may not stand in the profile is refused at its first byte.
pub fn check_contour(
    profile: Profile,
    file: &[u8],
    at: usize,
    room: u64,
) -> Result<ContoursEnd, Broken>
    requires { (at ≤ length file.now) × (room ≤ most_points) }
    ensures value { result ≡ contour_told_at profile room file.now at }
{
    let (count, next) = read_number(file, at, room)?;
    if count < 2 {
        return Err(Broken { at });
    }
    let p = check_points(profile, file, next, count)?;
    if !p.fits {
        return Err(Broken { at });
    }
    Ok(ContoursEnd {
        at: p.at,
        room: room - count,
        area: p.area,
    })
}

// Checks so many contours, the first of a layer.
pub fn check_contours(
    profile: Profile,
    file: &[u8],
    at: usize,
    count: u64,
) -> Result<ContoursEnd, Broken>
    requires { at ≤ length file.now }
    ensures value { result ≡ contours_at profile count file.now at }
{
    let mut room = MOST_POINTS_64;
    let mut sum: i64 = 0;
    let mut i = at;
    for _ in 0..count {
        let c = check_contour(profile, file, i, room)?;
        i = c.at;
        room = c.room;
        sum += c.area;
    }
    Ok(ContoursEnd {
        at: i,
        room,
        area: sum,
    })
}

// Checks the contours of a layer with their count.
pub fn check_counted(profile: Profile, file: &[u8], at: usize) -> Result<CountsEnd, Broken>
    requires { at ≤ length file.now }
    ensures value { result ≡ counts_at profile file.now at }
{
    let (count, next) = read_number(file, at, LARGEST_WORD)?;
    let c = check_contours(profile, file, next, count)?;
    Ok(CountsEnd {
        at: c.at,
        contours: count,
        points: MOST_POINTS_64 - c.room,
        area: c.area,
    })
}

// The height at a position of a file and the position after it, where it must lie above low.
pub fn read_height(file: &[u8], at: usize, low: i64) -> Result<(i64, usize), Broken>
    ensures value { result ≡ height_told_at low file.now at }
{
    let (m, next) = read_number(file, at, LARGEST_WORD)?;
    let h = signed_of(m);
    if low < h {
        return Ok((h, next));
    }
    Err(Broken { at })
}

// Checks a layer, which must lie above low.
pub fn check_layer(profile: Profile, file: &[u8], at: usize, low: i64) -> Result<LayerEnd, Broken>
    requires { at ≤ length file.now }
    ensures value { result ≡ layer_told_at profile low file.now at }
{
    let (height, j) = read_height(file, at, low)?;
    let counts = check_counted(profile, file, j)?;
    Ok(LayerEnd {
        at: counts.at,
        height,
        area: counts.area,
    })
}

// Checks so many layers, of which the first must lie above low.
pub fn check_layers(
    profile: Profile,
    file: &[u8],
    at: usize,
    count: u64,
    low: i64,
) -> Result<LevelsEnd, Broken>
    requires { at ≤ length file.now }
    ensures value { result ≡ levels_at profile count low file.now at }
{
    let mut last = low;
    let mut i = at;
    for _ in 0..count {
        let l = check_layer(profile, file, i, last)?;
        i = l.at;
        last = l.height;
    }
    Ok(LevelsEnd {
        at: i,
        height: last,
    })
}

// Checks so many layers, and that the file ends after them.
pub fn check_last(
    profile: Profile,
    file: &[u8],
    at: usize,
    count: u64,
    low: i64,
) -> Result<usize, Broken>
    requires { at ≤ length file.now }
    ensures value { result ≡ extent_at (final (sequence (layer_format_in profile) height_of count low)) file.now at }
{
    let c = check_layers(profile, file, at, count, low)?;
    if c.at < file.len() {
        return Err(Broken { at: c.at });
    }
    Ok(c.at)
}
