// The claims over the calls of a rolling scan, in specs/; no code.
#![tactic(auto)]
