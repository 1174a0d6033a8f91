// No code: that the bits an operation is evaluated to agree with what it means stands in specs/ and proofs/.
#![tactic(auto)]
