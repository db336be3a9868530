// The tree of a picture: definitions and laws only, no code.
#![tactic(auto)]
