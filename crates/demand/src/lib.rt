// The three demands about calls on lent bytes, in specs/, and their proofs. No code.
#![tactic(auto)]
