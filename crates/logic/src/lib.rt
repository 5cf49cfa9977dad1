// Tests, choices and lists, and laws about them that are of no paper. No code.
#![tactic(auto)]
