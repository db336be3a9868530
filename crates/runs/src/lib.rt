// What the maps of a call at its gap hold, by runs of residues and by equation 6 of the published method: definitions and laws only, no code.
#![tactic(auto)]
