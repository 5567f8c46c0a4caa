// How tight the contracts are: statements about the functions of every other crate, and no code.
#![tactic(auto)]
