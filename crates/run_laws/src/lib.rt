// Laws of a whole run and of the host's entry: no code.
#![tactic(auto)]
