// Demand 3 and what follows from it are theorems in specs/; there is no code here.

#![tactic(auto)]
