// No code: what a directory table is, byte by byte, and its laws.
#![tactic(auto)]
