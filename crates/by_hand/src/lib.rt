// What the proofs by hand share: laws in proofs/. No code.
#![tactic(auto)]
