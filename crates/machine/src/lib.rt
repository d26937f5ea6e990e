// What calls do to the controller's lent bytes, as definitions, in specs/; that it is what document 01 says, in proofs/. No code.
#![tactic(auto)]
