// Standings, levels, the verdict within an allowance, and which lists of standings prove, in definitions. (Document 01, "Standings" and "Sheet
// and graph bytes".) No code: `proofs/` shows what a standing says of its prefix, and that a verdict is the one that the words fix.
#![tactic(auto)]
