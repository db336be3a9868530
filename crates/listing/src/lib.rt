// A list of pixels that is filled by level: laws only, no code.
#![tactic(auto)]
