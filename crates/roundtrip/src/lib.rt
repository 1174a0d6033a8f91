// No code: that printing and reading undo each other stands in specs/ and proofs/.
#![tactic(auto)]
