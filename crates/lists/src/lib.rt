// The digits of words, as a definition and theorems, for sets that are kept in words. There is no code here.
#![tactic(auto)]
