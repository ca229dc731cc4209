// The check of an image and the run of an image. Definitions and theorems, no code.
#![tactic(auto)]
