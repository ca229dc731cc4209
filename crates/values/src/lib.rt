// Values and the operations on them. Definitions and theorems, no code.
#![tactic(auto)]
