// Contours cleaned, one by one: into another table, or where they stand.

#![tactic(auto)]

pub mod unchecked;
