// No code: that a treated block runs alike stands in specs/ and proofs/.
#![tactic(auto)]
