// No code: which lists and which plans are refused what, each exactly where its cause is there.
#![tactic(auto)]
