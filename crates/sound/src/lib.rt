// Demand 3 as one claim about whole runs. Definitions and theorems, no code.
#![tactic(auto)]
