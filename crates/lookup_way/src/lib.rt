// No code: the ways along links that a lookup follows, and what it answers along one.
#![tactic(auto)]
