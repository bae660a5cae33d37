// How many relations are kept at once while an expression is worked out, and that no accepted query needs more than 67. (Document 01, "Sheet
// and graph bytes", last paragraph.) No code.
#![tactic(auto)]
