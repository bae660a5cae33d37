// Kleene algebra with tests: expressions, guarded words and languages, labelled graphs with the relational meaning, occurrence tables, and
// rings. (Document 01, "Words" and "Standings".) No code: `specs/` has the definitions, `proofs/` the laws that join them.
#![tactic(auto)]
