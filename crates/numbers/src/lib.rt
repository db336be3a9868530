// The numbers that the flood gives to the nodes stand for parents, and these for the tree. Definitions and laws only, no code.
#![tactic(auto)]
