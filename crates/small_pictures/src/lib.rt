// The cases for proof of the table of small pictures: a theorem only, no code.
#![tactic(auto)]
