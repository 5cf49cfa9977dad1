// Demands 1 and 3 on the functions that C calls to load and to step, as statements on the names in their contracts. No code here: specs/ says them, proofs/
// proves them.
#![tactic(auto)]
