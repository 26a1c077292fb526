// The layers of a mesh at rising heights. What All layers is stands in specs/; the crate `all_layers` has the function.
#![tactic(auto)]

pub mod unchecked_sweep;
