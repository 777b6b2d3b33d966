// Worked computations of the crates below, in specs/; no code.
#![tactic(auto)]
