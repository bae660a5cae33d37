// Document 01 as a whole in definitions: sheets, graphs, judgements and the calls, and what `notation` and `verdicts` define, passed on.
// (Document 01, "Sheet and graph bytes", "Refusals with an example each" and "The desk's cases".) No code: `proofs/` has the second and the
// third demand about these definitions.
#![tactic(auto)]
