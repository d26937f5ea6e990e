// Polled packets and arrivals on the definitions of `paper`: which pieces are polled, in specs/, and laws of demand 3, in proofs/. No code.
#![tactic(auto)]
