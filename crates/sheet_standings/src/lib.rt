// The standings of a sheet as cells: numbers of four bytes, as they lie in the sheet. Where what stands among them has a name here; `specs/`
// has steps and completion on cells, `proofs/` that they are those of the definition. No code.
#![tactic(auto)]

use layout::WIDTH;

// The numbers of a cell are below this.
pub const CELL: u64 = 4294967296;

// The cells of a path standing: P in two, S in two.
pub const PATH_CELLS: usize = 4;

// Where the rows of M begin in a ring standing: behind the head, which has the first atom and Z, and P in two.
pub const M_AT: usize = 3;

// Where the rows of N begin.
pub const N_AT: usize = M_AT + WIDTH;

// The cells of a ring standing.
pub const CELLS: usize = N_AT + WIDTH;

// The cells that are held of a standing: those of a ring standing, of which a path standing has the first.
pub type Cells = [u64; CELLS];
