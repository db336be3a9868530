// The flood's state and the steps between states, over any adjacency, and the numbers of its nodes. Definitions and laws only, no code.
#![tactic(auto)]
