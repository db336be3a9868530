// Laws of steps files: a file is accepted exactly if it spells an attribute and a step list, byte for byte, and then it gives them.
#![tactic(auto)]
