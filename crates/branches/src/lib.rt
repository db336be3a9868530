// The pixels of a node in terms of parent words: definitions and laws only, no code.
#![tactic(auto)]
