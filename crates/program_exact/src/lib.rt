// Refusals that are exact: the reader of programs beside the grammar. Definitions and theorems, no code.
#![tactic(auto)]
