// A buffer as a list of sections, and a section as a list of numbers: definitions in specs/, laws in proofs/. No code here.
#![tactic(auto)]
