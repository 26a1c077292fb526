// The third demand (RUN-1 to RUN-10), proved; see specs/. The product has no function here.

#![tactic(auto)]
