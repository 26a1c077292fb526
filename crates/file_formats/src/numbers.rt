// Numbers in groups of seven bits (NUMBER-1, NUMBER-2): read, measured, and as signed numbers (NUMBER-3).
ghost use Rattle.std.specs.Prelude.{◌≡◌, length, ◌-ℤ◌};
ghost use Rattle.file_formats.specs.Numbers.{encode_number, zigzag, unzigzag};
ghost use Rattle.file_formats.specs.Positions.{number_at};

use crate::Broken;

// The number at a position of a file, if it is at most top. `value` is what the groups read so far make, `unit` what the next group counts,
// `rest` the most that the groups to come may make, and `least` what the last group must reach: only a first group may be 0 at the end.
pub fn read_number(file: &[u8], at: usize, top: u64) -> Result<(u64, usize), Broken>
    ensures value { result ≡ number_at top file.now at }
{
    let mut value: u64 = 0;
    let mut unit: u64 = 1;
    let mut rest = top;
    let mut least: u64 = 0;
    for i in at..file.len() {
        let b = u64::from(file[i]);
        if b < 128 {
            if b < least {
                return Err(Broken { at });
            }
            if rest < b {
                return Err(Broken { at });
            }
            return Ok((value + unit * b, i + 1));
        }
        if rest < 128 {
            return Err(Broken { at });
        }
        let low = b - 128;
        value += unit * low;
        unit *= 128;
        rest = (rest - low) / 128;
        least = 1;
    }
    Err(Broken { at })
}

// How many bytes a number takes.
pub fn number_length(n: u64) -> usize
    ensures value { result ≡ length (encode_number n) }
{
    (n | 1).ilog2() as usize / 7 + 1
}

// The signed number that m stands for.
pub fn signed_of(m: u64) -> i64
    ensures value { result ≡ unzigzag m }
{
    let half = (m / 2) as i64;
    if m % 2 == 0 { half } else { -1 - half }
}

// The number that stands for a signed one.
pub fn unsigned_of(z: i64) -> u64
    ensures value { result ≡ zigzag z }
{
    if z < 0 {
        2 * (-1 - z) as u64 + 1
    } else {
        2 * z as u64
    }
}

// The number that stands for the difference of a coordinate to the one before.
pub fn difference(z: i32, before: i32) -> u64
    ensures value { result ≡ zigzag (z -ℤ before) }
{
    unsigned_of(i64::from(z) - i64::from(before))
}
