// No code: a table that the strict check accepts as a tree, and what a lookup in it answers.
#![tactic(auto)]
