// Demand 3, as theorems over the session machine's definition of one call, and no code.
#![tactic(auto)]
