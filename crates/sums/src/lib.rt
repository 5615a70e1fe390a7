// Demand 3 has no code of its own: its statement is in specs/Sums.antt, its theorem in proofs/Theorem.antt.
#![tactic(auto)]
