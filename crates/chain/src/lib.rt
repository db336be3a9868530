// Chains of opening calls: definitions and the claims about whole chains only, no code.
#![tactic(auto)]
