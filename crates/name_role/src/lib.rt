// No code: what a name is by its role (given, stored, sought), how names compare in each, and which can be sought.
#![tactic(auto)]
