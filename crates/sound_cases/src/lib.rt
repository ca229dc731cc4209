// Document 01's eight cases, and tables of values, comparisons and runs that are computed. Definitions and theorems, no
// code.
#![tactic(auto)]
