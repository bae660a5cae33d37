// The query in definitions: bytes, tokens, grammar, names, limits and refusals 1 to 8, and the two sides of what is to be decided. (Document
// 01, "The query", "Words" and "Refusals with an example each".) No code: `proofs/` has the order of refusals, and rows at each limit.
#![tactic(auto)]
