// Ring standings on cells, one letter on: a standing is CELLS of them. (Document 01, "Standings".) Each row of M goes on by itself, here; a row of
// N is sent into the rows of the occurrences that may be read next, and so are the pairs that open, in `sheet_pairs`. A cell has four bytes: what
// is read of a standing requires that its cells are below CELL, and what is written of one ensures it.
#![tactic(auto)]

ghost use Rattle.std.specs.Prelude.{◌/◌, ◌<◌, ℕ, ◌≤◌, ◌≡◌, ◌++◌, cond, not, ◌||◌, length, get_or, take, eqb};
ghost use Rattle.memory.specs.Memory.{words, zeros};
ghost use Rattle.standings.specs.Steps.{step_from, step_set, joined};
ghost use Rattle.sheet_standings.specs.RingCells.{row_m, raised, head_cell, flag, sent, ring_begin, ring_onward};
ghost use Rattle.kat.specs.Lists.{upto};
ghost use Rattle.sheet_standings.specs.Layout.{wide, CELL, CELLS, M-AT};
ghost use Rattle.layout.specs.Layout.{WIDTH};
ghost use Rattle.sheet_ring.specs.inner.Head.{headed};

use layout::{MOST_RIGHT, RING_CONTENTS, WIDTH};
use memory::{clear, word};
use sheet_pairs::pairs_on;
use sheet_standings::{CELL, CELLS, Cells, M_AT, N_AT};
use sheet_steps::{null_at, step_from, step_set, whole};
use side_tables::Table;

// The sets of a ring's right occurrences are below this.
const SETS: u64 = 1 << MOST_RIGHT;

// The length of the contents of a standing's field, in the upper two bytes of its first cell.
const HEAD: u64 = (RING_CONTENTS as u64) * 65536;

// A row of M one letter on, which is empty where the row is.
fn row_on(right: &Table, row: u64, a: usize, r: usize) -> u64
    ensures { result ≡ raised (step_set right.now (row / 2) a r) }
{
    let s = row / 2;
    if s == 0 {
        return 0;
    }
    step_set(right, s, a, r) % SETS * 2
}

// The rows of M one letter on. M has WIDTH rows.
fn rows_on(right: &Table, from: &[u64], a: usize, r: usize, to: &mut [u64])
    requires { length to.old ≡ WIDTH }
    ensures { to.new ≡ words WIDTH (λ p. raised (step_set right.now (row_m from.now p / 2) a r)) }
{
    for (p, row) in to.iter_mut().enumerate() {
        *row = row_on(right, word(from, M_AT + p), a, r);
    }
}

// The rows of M of a prefix of one relation. M has WIDTH rows.
fn first_rows(right: &Table, a: usize, r: usize, to: &mut [u64])
    requires { length to.old ≡ WIDTH }
    ensures { to.new ≡ words WIDTH (λ p. raised (step_from right.now p a r)) }
{
    for (p, row) in to.iter_mut().enumerate() {
        *row = step_from(right, p, a, r) % SETS * 2;
    }
}

// Z, where it was z, and whether the atom is a right word.
fn flagged(z: u64, null: bool) -> u64
    ensures { (result ≡ flag (not (eqb z 0) || null)) × (result ≤ 1) }
{
    if z != 0 {
        return 1;
    }
    if null { 1 } else { 0 }
}

// The first atom and Z, each in a byte, behind the length of the field, and P: cells 0, 1 and 2 of a standing, which are there.
fn put_head(to: &mut [u64], first: u64, z: u64, p: u64)
    requires { (M-AT ≤ length to.old) × (first < 256) × (z ≤ 1) }
    ensures { to.new ≡ headed to.old (head_cell first z) p }
{
    to[0] = HEAD + 256 * first + z;
    to[1] = p / CELL;
    to[2] = p % CELL;
}

// The rows of a prefix of one relation behind the cells before them: M, and nothing in N.
fn lay_first(right: &Table, a: usize, r: usize, to: &mut [u64])
    requires { length to.old ≡ CELLS }
    ensures { to.new ≡ take M-AT to.old ++ (words WIDTH (λ p. raised (step_from right.now p a r)) ++ zeros WIDTH) }
{
    first_rows(right, a, r, &mut to[M_AT..N_AT]);
    clear(&mut to[N_AT..CELLS]);
}

// The rows of a prefix one relation longer behind the cells before them: M and N.
fn lay_on(right: &Table, from: &[u64], a: usize, r: usize, to: &mut [u64])
    requires { length to.old ≡ CELLS }
    ensures { to.new ≡ take M-AT to.old
        ++ (words WIDTH (λ p. raised (step_set right.now (row_m from.now p / 2) a r))
        ++ words WIDTH (λ q. cond (eqb q 0) 0
        (joined right.now (record { atom = a; relation = r }) (sent right.now from.now a) q (upto 0 WIDTH)))) }
{
    rows_on(right, from, a, r, &mut to[M_AT..N_AT]);
    pairs_on(right, from, a, r, &mut to[N_AT..CELLS]);
}

// P of a standing.
pub fn left_of(at: &Cells) -> u64
    requires { (i : ℕ) → get_or at.now i 0 < CELL }
    ensures { result ≡ wide at.now 1 }
{
    whole(at[1], at[2])
}

// The standing of a prefix of one relation. Its first atom has a byte.
pub fn begin(left: &Table, right: &Table, a: usize, r: usize, to: &mut Cells)
    requires { a < 256 }
    ensures { (to.new ≡ ring_begin left.now right.now (record { atom = a; relation = r }))
        × ((i : ℕ) → get_or to.new i 0 < CELL) }
{
    let p = step_from(left, 0, a, r);
    let z = flagged(0, null_at(right, a));
    put_head(to, a as u64, z, p);
    lay_first(right, a, r, to);
}

// The standing of a prefix one relation longer.
pub fn onward(left: &Table, right: &Table, from: &Cells, a: usize, r: usize, to: &mut Cells)
    requires { (i : ℕ) → get_or from.now i 0 < CELL }
    ensures { (to.new ≡ ring_onward left.now right.now from.now (record { atom = a; relation = r }))
        × ((i : ℕ) → get_or to.new i 0 < CELL) }
{
    let p = step_set(left, left_of(from), a, r);
    let head = from[0];
    let z = flagged(head % 256, null_at(right, a));
    put_head(to, head / 256 % 256, z, p);
    lay_on(right, from, a, r, to);
}
