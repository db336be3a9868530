// Attribute openings, levelings and residues: definitions and laws only, no code.
#![tactic(auto)]
