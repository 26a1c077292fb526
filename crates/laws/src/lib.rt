// Lemmas for the crates above; see specs/. The product has no function here.

#![tactic(auto)]
