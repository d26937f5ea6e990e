// Demand 3 on the definitions of `paper`, in specs/, and its proof, in proofs/. No code.
#![tactic(auto)]
