// The demands, as statements over the crates above. specs/ states them, and proofs/ gives a proof of each. There is no code here.

#![tactic(auto)]
