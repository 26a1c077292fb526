// The layer file put into the output, or the output found too short before the first byte is written.

#![tactic(auto)]

pub mod unchecked;
