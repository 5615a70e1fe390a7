// Laws of the service profile: no code.
#![tactic(auto)]
