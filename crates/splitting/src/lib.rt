// The fields of a record: definitions and theorems, no code.
#![tactic(auto)]
