// Sets of positions: definitions and laws only, no code.
#![tactic(auto)]
