// Definitions and laws alone: searches over numbers for any test, and what a test says. Nothing here knows a table.
#![tactic(auto)]
