// Trees of programs: what each derivation of a text's tokens says is what is read. Definitions and theorems, no code.
#![tactic(auto)]
