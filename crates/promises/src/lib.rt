// Theorems about the session machine's definition of one call, and no code.
#![tactic(auto)]
