// No code: a file that was planned is loaded.
#![tactic(auto)]
