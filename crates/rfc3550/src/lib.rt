// RTCP as document 01 has it: definitions in specs/, laws and theorems in proofs/. No code.
#![tactic(auto)]
