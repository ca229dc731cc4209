// The levels of a filter text: which token opens one too many. Definitions and theorems, no code.
#![tactic(auto)]
