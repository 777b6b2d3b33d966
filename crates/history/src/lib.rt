// What document 02 asks to be shown of earlier answers, in specs/; no code.
#![tactic(auto)]
