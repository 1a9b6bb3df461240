// No code: what is written is what is listed is what is found, as theorems about the definitions of the crates below.
#![tactic(auto)]
