// The formats of the two files, see specs/, and the code that reads and writes the numbers in them.

#![tactic(auto)]

ghost use Rattle.std.specs.Prelude.{◌≡◌};
ghost use Rattle.mesh.specs.declared.Refusal.TheVariants.{File};

use mesh::Refusal;

pub mod numbers;
pub mod unchecked;

// The most layers of a file (LIMIT-5), and so the most heights of All layers (LIMIT-4).
pub const MOST_LAYERS: usize = 4096;

// The largest number of 32 bits.
pub const LARGEST_WORD: u64 = u32::MAX as u64;

// The position of the first value that may not stand there.
#[derive(Clone, Copy, Debug, PartialEq, Eq)]
pub struct Broken {
    pub at: usize,
}

// A file that breaks there is refused (REFUSAL-13).
impl From<Broken> for Refusal {
    ghost from_gives = { λ b r. r ≡ File b.at };

    fn from(b: Broken) -> Refusal {
        Refusal::File(b.at)
    }
}
