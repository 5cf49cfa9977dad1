// Document 01's examples ("Examples and faults to shut out"), and the change requests'. No code here: specs/ has the table, proofs/ proves it of the
// definitions.
#![tactic(auto)]
