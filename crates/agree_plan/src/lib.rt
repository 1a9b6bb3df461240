// No code: what is planned is what is written, and what is found along a path.
#![tactic(auto)]
