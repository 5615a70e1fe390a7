// That a left shift is the operand added to itself: no code. The statement is in specs/Shifts.antt, the theorem in proofs/Theorem.antt.
#![tactic(auto)]
