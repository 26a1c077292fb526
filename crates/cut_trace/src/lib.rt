// The contours of a table of links, taken out ring by ring.
#![tactic(auto)]

pub mod unchecked_rings;

// A crossing already used, which is not the start of the walk that came to it.
#[derive(Clone, Copy, Debug, PartialEq, Eq)]
pub struct UsedCrossing {
    pub at: usize,
}
