// Layers cleaned: into other tables, or where they stand.

#![tactic(auto)]

pub mod unchecked;
