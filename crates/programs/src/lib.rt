// What programs bench and reader print, as definitions, which stand in specs/, and that it is document 01's, in proofs/. No code.
#![tactic(auto)]
