// The partner of every corner, for Check.
#![tactic(auto)]

pub mod unchecked_pairs;
