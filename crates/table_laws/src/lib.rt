// Laws that tie the columns of crate code's table to what is executed: no code.
#![tactic(auto)]
