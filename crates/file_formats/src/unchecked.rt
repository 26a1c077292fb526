// Writing a number into a lent table: the `requires` says that it has room.
ghost use Rattle.std.specs.Prelude.{◌≡◌, ◌+◌, ◌≤◌, length};
ghost use Rattle.std.proofs.lemmas.List.Edits.{sets};
ghost use Rattle.file_formats.specs.Numbers.{encode_number};

// Writes a number at a position, and returns the position after it. All before and after stays.
pub fn write_number(out: &mut [u8], at: usize, n: u64) -> usize
    requires { at + length (encode_number n) ≤ length out.old }
    ensures outcome { (result ≡ at + length (encode_number n))
        × (out.new ≡ sets out.old at (encode_number n)) }
{
    let mut v = n;
    let mut i = at;
    // As many turns as the number has groups: the number tells when it ends.
    while 128 <= v {
        out[i] = (128 + v % 128) as u8;
        v /= 128;
        i += 1;
    }
    out[i] = v as u8;
    i + 1
}
