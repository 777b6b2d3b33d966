// Places of lines and planes, in specs/; no code.
#![tactic(auto)]
