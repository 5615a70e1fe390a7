// Laws of a run whose samples are cut: no code.
#![tactic(auto)]
