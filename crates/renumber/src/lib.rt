// A start is by id: renumbering the rows changes no run. Laws alone, no code.
#![tactic(auto)]
