// The laws of listings: there and back, the fixed spelling, and which line is refused. It has no code.
#![tactic(auto)]
