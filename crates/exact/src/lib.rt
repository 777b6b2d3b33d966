// The exact transform, in specs/; no code.
#![tactic(auto)]
