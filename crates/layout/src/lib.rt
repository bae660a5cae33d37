// Sizes that document 01 gives, by name: the width of a ring's tables, the memory of a ring standing, the bytes of a sheet's fields, the
// longest query, sheet and graph, and the program's allowance. (Document 01, "Standings", "Sheet and graph bytes" and "The desk's cases".) Whoever needs such a number takes it from here;
// `proofs/Named.antt` shows that each is the number of the definitions. No code.
#![tactic(auto)]

// How many numbers a ring's tables are over: 0, and the right occurrences of a ring claim.
pub const WIDTH: usize = 32;

// The right occurrences that a ring claim may have.
pub const MOST_RIGHT: usize = WIDTH - 1;

// The words of working memory for each standing of a ring claim.
pub const RING_WORDS: usize = WIDTH + 8;

// The bytes of a field before its contents: the tag, and the length in two bytes.
pub const HEADER: usize = 3;

// The bytes of the verdict's field, with which a sheet begins.
pub const VERDICT: usize = HEADER + 1;

// Where the word of a refuted sheet begins: behind the verdict's field, and the header of its own.
pub const WORD_AT: usize = VERDICT + HEADER;

// The contents of the field of a path standing: P and S, of eight bytes each.
pub const PATH_CONTENTS: usize = 16;

// The contents of the field of a ring standing: the first atom, Z, P, and the rows of M and of N, of an eighth of the width each.
pub const RING_CONTENTS: usize = 10 + 2 * WIDTH * (WIDTH / 8);

// The bytes of the field of a path standing.
pub const PATH_FIELD: usize = HEADER + PATH_CONTENTS;

// The bytes of the field of a ring standing.
pub const RING_FIELD: usize = HEADER + RING_CONTENTS;

// The standings of the largest allowance, and of the longest sheet.
pub const MOST_STANDINGS: usize = 4096;

// The words of working memory for a ring claim at the largest allowance.
pub const MOST_WORDS: usize = RING_WORDS * MOST_STANDINGS;

// The bytes of the longest sheet, of a ring claim at the largest allowance.
pub const LONGEST_SHEET: usize = VERDICT + RING_FIELD * MOST_STANDINGS;

// The bytes of the longest query.
pub const LONGEST_QUERY: usize = 4096;

// The events of the largest graph that has bytes.
pub const MOST_EVENTS: usize = 64;

// The bytes of the events of such a graph, each of which is an atom.
pub const EVENT_BYTES: usize = MOST_EVENTS * (HEADER + 1);

// The bytes of all edges that one relation may have in it: relation, from and to.
pub const EDGE_BYTES: usize = MOST_EVENTS * MOST_EVENTS * (HEADER + 3);

// The allowance of the query program, where none is given.
pub const PROGRAM_ALLOWANCE: usize = 200;
