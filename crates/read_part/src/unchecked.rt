// The two passes over a part file. One finds its tables and checks every value, the other fills the lent tables.
ghost use Rattle.std.specs.Prelude.{◌≡◌, ◌≤◌, length};
ghost use Rattle.laws.specs.Tables.{overwrite};
ghost use Rattle.file_formats.specs.Numbers.{largest_word, unzigzag};
ghost use Rattle.file_formats.specs.PartFile.{signed_run, plain_run};
ghost use Rattle.file_formats.specs.Positions.{extent_at};
ghost use Rattle.read_part.specs.Layouts.{values_of, FitsTable, CountsStand, Tabled, Finds};

use file_formats::numbers::{read_number, signed_of};
use file_formats::{Broken, LARGEST_WORD};

// So many numbers in a row, from a position of a file on.
#[derive(Clone, Copy, Debug, PartialEq, Eq)]
pub struct FileRun {
    pub at: usize,
    pub count: usize,
}

// Where the tables of a part file stand.
#[derive(Clone, Copy, Debug, PartialEq, Eq)]
pub struct Layout {
    pub coords: FileRun,
    pub corners: FileRun,
    pub heights: FileRun,
}

// How far so many numbers of 32 bits go, plain ones or those that stand for signed ones.
fn check_run(file: &[u8], at: usize, count: usize) -> Result<usize, Broken>
    requires { at ≤ length file.now }
    ensures value { result ≡ extent_at (plain_run count) file.now at }
{
    let mut i = at;
    for _ in 0..count {
        let (_, next) = read_number(file, i, LARGEST_WORD)?;
        i = next;
    }
    Ok(i)
}

// Finds the heights, which start at a position: their count, and then they and nothing else up to the file's end.
fn find_heights(file: &[u8], coords: FileRun, corners: FileRun, at: usize) -> Result<Layout, Broken>
    requires { Tabled file.now coords corners at }
    ensures result { Finds file.now result }
{
    let (h, next) = read_number(file, at, LARGEST_WORD)?;
    let count = h as usize;
    let end = check_run(file, next, count)?;
    if end < file.len() {
        return Err(Broken { at: end });
    }
    let heights = FileRun { at: next, count };
    Ok(Layout {
        coords,
        corners,
        heights,
    })
}

// Finds so many coordinates, so many corners and the heights, from a position on.
fn find_tables(file: &[u8], coords: usize, corners: usize, at: usize) -> Result<Layout, Broken>
    requires { CountsStand file.now coords corners at }
    ensures result { Finds file.now result }
{
    let i = check_run(file, at, coords)?;
    let j = check_run(file, i, corners)?;
    let a = FileRun { at, count: coords };
    let b = FileRun {
        at: i,
        count: corners,
    };
    find_heights(file, a, b, j)
}

// The first pass: where the tables of a part file stand, or where it breaks.
pub fn find_part(file: &[u8]) -> Result<Layout, Broken>
    ensures result { Finds file.now result }
{
    let (v, a) = read_number(file, 0, LARGEST_WORD)?;
    let (t, b) = read_number(file, a, LARGEST_WORD)?;
    find_tables(file, 3 * (v as usize), 3 * (t as usize), b)
}

// The signed number of 32 bits that m stands for.
fn signed_word(m: u64) -> i32
    requires { m ≤ largest_word }
    ensures value { result ≡ unzigzag m }
{
    signed_of(m) as i32
}

// Fills the front of a table with signed numbers that were checked.
pub fn fill_signed(file: &[u8], run: FileRun, table: &mut [i32])
    requires { FitsTable signed_run file.now run table.old }
    ensures outcome { table.new ≡ overwrite (values_of signed_run file.now run)
        table.old }
{
    let mut i = run.at;
    for k in 0..run.count {
        let (m, next) = read_number(file, i, LARGEST_WORD).unwrap();
        table[k] = signed_word(m);
        i = next;
    }
}

// Fills the front of a table with corners that were checked.
// A loop of its own: one for both tables would take a closure, and a contract over what that makes.
pub fn fill_corners(file: &[u8], run: FileRun, corners: &mut [u32])
    requires { FitsTable plain_run file.now run corners.old }
    ensures outcome { corners.new ≡ overwrite (values_of plain_run file.now run)
        corners.old }
{
    let mut i = run.at;
    for c in 0..run.count {
        let (v, next) = read_number(file, i, LARGEST_WORD).unwrap();
        corners[c] = v as u32;
        i = next;
    }
}
