// Worked verdicts of the judge, in specs/; no code.
#![tactic(auto)]
