// The section of a mesh by a set of passed vertices.
#![tactic(auto)]

pub mod unchecked_crossings;

// The ring entry of a corner that is no crossing (SWEEP-3).
pub const NO_CORNER: u32 = u32::MAX;
