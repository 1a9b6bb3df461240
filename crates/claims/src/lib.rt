// No code: what is claimed of the operations, whole. Each statement is a type in specs/ with all its hypotheses in
// sight, and in proofs/ a value of it, which cites the theorems that it rests on. docs/CLAIMS.md has them in words.
#![tactic(auto)]
