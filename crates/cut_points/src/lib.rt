// Points: where the edges of a mesh meet a height, for the cutter.
#![tactic(auto)]

pub mod unchecked_points;
