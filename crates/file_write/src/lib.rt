// The writer of the layer file: a layer in the tables that Cut leaves, measured and written.

#![tactic(auto)]

pub mod unchecked_layers;
