// Where the nodes of a picture fall along a list of steps: definitions and laws.
#![tactic(auto)]
