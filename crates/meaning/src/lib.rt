// No code: what an operation of the run class means, on numbers, stands in specs/.
#![tactic(auto)]
