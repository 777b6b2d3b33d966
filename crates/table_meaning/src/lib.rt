// The meaning of a width table, in specs/; no code.
#![tactic(auto)]
