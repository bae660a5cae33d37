// What the search knows of a decision beside the tables of its two sides, and where the parts of a standing are among its words. (Document 01,
// "Standings".) `specs/Layout.antt` has the same places; what the words mean is `specs/PathWords.antt` and `specs/RingWords.antt`.
#![tactic(auto)]

use layout::{RING_WORDS, WIDTH};

// Whether the claim is one of rings, the number of right occurrences, the set of the atoms that no `never` removes, and the number of
// relations.
#[derive(Clone, Copy)]
pub struct Shape {
    pub ring: bool,
    pub right: usize,
    pub live: u64,
    pub relations: usize,
}

// The words of a standing on its way. A path standing is its first two, P and S. Of a ring standing word 0 is P, the words from 1 to before
// WIDTH are the columns of its occurrences, and behind them are the first atom and Z; in memory the place of its parent and its letter come next.
pub type Standing = [u64; RING_WORDS];

// The first atom of a ring standing.
pub const FIRST: usize = WIDTH;

// Z of a ring standing.
pub const FLAG: usize = WIDTH + 1;

// How many words tell one ring standing from another.
pub const TOLD: usize = WIDTH + 2;

// The place of a ring standing's parent in memory, and its letter: two words that tell no standing from another.
pub const PARENT: usize = TOLD;

pub const LETTER: usize = TOLD + 1;

// A column has M in its lower half and N in its upper one, whose unit this is.
pub const UPPER: u64 = 1 << WIDTH;
