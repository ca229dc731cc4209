// An image: what it has, and its bytes and content words. Definitions and theorems, no code.
#![tactic(auto)]
