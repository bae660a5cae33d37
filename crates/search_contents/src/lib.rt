// The bytes of a standing's field, from the machine words in which the search keeps the standing. (Document 01, "Sheet and graph bytes".) No
// code: `proofs/` shows that they are those of the standing that the words show.
#![tactic(auto)]
