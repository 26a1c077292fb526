// The worked pieces, proved; see specs/. The product has no function here.

#![tactic(auto)]
