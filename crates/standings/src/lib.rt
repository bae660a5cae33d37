// Standings as machine words: what the search and the sheet check both start from. No code: `specs/` has one letter on by the table of a
// side, `proofs/` what the tables say and how one kind of standing shows another.
#![tactic(auto)]
