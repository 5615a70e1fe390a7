// The theorems of runs with a memory on the bus. There is no code here.
#![tactic(auto)]
