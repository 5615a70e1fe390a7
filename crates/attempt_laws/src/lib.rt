// Laws of one attempt, which are about all parts of the state together: no code.
#![tactic(auto)]
