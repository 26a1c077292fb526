// Numbers and texts written into an output that has room, as each `requires` says. All before and after the text stays.
ghost use Rattle.std.specs.Prelude.{◌≡◌, length};
ghost use Rattle.list_decimals.specs.Decimals.{decimal, signed_decimal};
ghost use Rattle.list_decimals.specs.Texts.{TextRoom, PutsText};

// How many digits a number has.
fn digit_count(n: u64) -> usize
    ensures value { result ≡ length (decimal n) }
{
    n.max(1).ilog10() as usize + 1
}

// Writes a number at a position, from its last digit to its first, and returns the position after it.
pub fn write_decimal(output: &mut [u8], at: usize, n: u64) -> usize
    requires { TextRoom output.old at (decimal n) }
    ensures outcome { PutsText output.old at (decimal n) result output.new }
{
    let end = at + digit_count(n);
    let mut rest = n;
    for i in (at..end).rev() {
        output[i] = (48 + rest % 10) as u8;
        rest /= 10;
    }
    end
}

pub fn write_signed(output: &mut [u8], at: usize, z: i64) -> usize
    requires { TextRoom output.old at (signed_decimal z) }
    ensures outcome { PutsText output.old at (signed_decimal z) result output.new }
{
    if z < 0 {
        output[at] = b'-';
        return write_decimal(output, at + 1, z.unsigned_abs());
    }
    write_decimal(output, at, z.unsigned_abs())
}

pub fn write_text(output: &mut [u8], at: usize, text: &[u8]) -> usize
    requires { TextRoom output.old at text.now }
    ensures outcome { PutsText output.old at text.now result output.new }
{
    let end = at + text.len();
    output[at..end].copy_from_slice(text);
    end
}
