// The users' names of a filter text, by a walk over its tokens. Definitions, no code.
#![tactic(auto)]
