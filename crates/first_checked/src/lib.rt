// No code: what holds of the first pass's result stands in proofs/.
#![tactic(auto)]
