// Numbers in decimal, and texts, written into an output.

#![tactic(auto)]

pub mod unchecked_text;
