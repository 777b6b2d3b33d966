// The proved table of cases, in specs/; no code.
#![tactic(auto)]
