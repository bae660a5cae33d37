// The borrow checker's rules as functions on derivations. No code: `proofs/` has each rule as a function from the derivation of what follows to that
// of the whole, so that a derivation is one term with a line for each step, and contracts whose clauses are plain facts. The checker itself
// makes such derivations, also for functions over a lent slice of records.
#![tactic(auto)]
