// Demand 3: no code, only what holds of every line's definition: stated in specs/Statement.antt, proved in proofs/Demand3.antt.
#![tactic(auto)]
