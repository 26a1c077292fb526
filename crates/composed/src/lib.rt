// What the operations do one after another, proved; see specs/. The product has no function here.

#![tactic(auto)]
