// Laws of the chip's marking: no code.
#![tactic(auto)]
