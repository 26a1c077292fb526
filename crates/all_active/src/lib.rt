// The corners that rise at each height, kept as one ascending list from height to height.
#![tactic(auto)]

pub mod unchecked_levels;
pub mod unchecked_lists;
