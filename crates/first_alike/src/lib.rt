// No code: that the first pass keeps the runs of a block stands in proofs/.
#![tactic(auto)]
