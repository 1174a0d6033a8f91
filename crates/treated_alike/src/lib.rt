// Treated blocks run alike: demand 3, about the public function of both passes and about files. Laws alone, no code.
#![tactic(auto)]
