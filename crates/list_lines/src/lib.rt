// The lines of the listing program, and the listing of a mesh.

#![tactic(auto)]

pub mod unchecked_lines;
