// Connectedness of a set of positions: definitions and laws only, no code.
#![tactic(auto)]
