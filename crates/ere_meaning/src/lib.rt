// EREs as trees: their meaning, and the leftmost longest match, as definitions and theorems. There is no code here.
#![tactic(auto)]
