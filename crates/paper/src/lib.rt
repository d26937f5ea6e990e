// Document 01 as definitions, which stand in specs/, and the laws it states, in proofs/. No code.
#![tactic(auto)]
