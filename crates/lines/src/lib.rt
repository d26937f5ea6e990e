// Lines of hexadecimal as definitions, which stand in specs/, and their laws, in proofs/. No code.
#![tactic(auto)]
