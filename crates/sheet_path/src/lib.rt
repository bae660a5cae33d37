// Path standings on cells: the first PATH_CELLS of those that are held, P in two and then S in two. (Document 01, "Standings".) The standing of a prefix of one
// relation, that of a prefix one relation longer, and whether a standing completes a refuting word. A cell has four bytes: what is read of
// a standing requires that its cells are below CELL, and what is written of one ensures it.
#![tactic(auto)]

ghost use Rattle.std.specs.Prelude.{ℕ, ◌≤◌, ◌<◌, ◌≡◌, not, ◌&&◌, length, get_or, take, drop};
ghost use Rattle.kat.specs.Lists.{is_empty, some, member};
ghost use Rattle.bits.specs.Sets.{members};
ghost use Rattle.standings.specs.Steps.{ends_set};
ghost use Rattle.sheet_standings.specs.Layout.{wide, CELL, PATH-CELLS};
ghost use Rattle.sheet_standings.specs.PathCells.{path_cells, path_begin, path_onward, path_finals};

use bits::member;
use sheet_standings::{CELL, Cells};
use sheet_steps::{ends_set, step_from, step_set, whole};
use side_tables::Table;

// The four cells of a standing, written.
fn put(to: &mut [u64], p: u64, s: u64)
    requires { PATH-CELLS ≤ length to.old }
    ensures { (take PATH-CELLS to.new ≡ path_cells p s) × (drop PATH-CELLS to.new ≡ drop PATH-CELLS to.old)
        × ((i : ℕ) → get_or (take PATH-CELLS to.new) i 0 < CELL) }
{
    to[0] = p / CELL;
    to[1] = p % CELL;
    to[2] = s / CELL;
    to[3] = s % CELL;
}

// The standing of a prefix of one relation.
pub fn begin(left: &Table, right: &Table, a: usize, r: usize, to: &mut Cells)
    ensures { (take PATH-CELLS to.new ≡ path_begin left.now right.now (record { atom = a; relation = r }))
        × (drop PATH-CELLS to.new ≡ drop PATH-CELLS to.old)
        × ((i : ℕ) → get_or (take PATH-CELLS to.new) i 0 < CELL) }
{
    let p = step_from(left, 0, a, r);
    let s = step_from(right, 0, a, r);
    put(to, p, s);
}

// P, and S, of a standing.
fn left_of(at: &Cells) -> u64
    requires { (i : ℕ) → get_or (take PATH-CELLS at.now) i 0 < CELL }
    ensures { result ≡ wide (take PATH-CELLS at.now) 0 }
{
    whole(at[0], at[1])
}

fn right_of(at: &Cells) -> u64
    requires { (i : ℕ) → get_or (take PATH-CELLS at.now) i 0 < CELL }
    ensures { result ≡ wide (take PATH-CELLS at.now) 2 }
{
    whole(at[2], at[3])
}

// The standing of a prefix one relation longer.
pub fn onward(left: &Table, right: &Table, from: &Cells, a: usize, r: usize, to: &mut Cells)
    requires { (i : ℕ) → get_or (take PATH-CELLS from.now) i 0 < CELL }
    ensures { (take PATH-CELLS to.new
        ≡ path_onward left.now right.now (take PATH-CELLS from.now) (record { atom = a; relation = r }))
        × (drop PATH-CELLS to.new ≡ drop PATH-CELLS to.old)
        × ((i : ℕ) → get_or (take PATH-CELLS to.new) i 0 < CELL) }
{
    let p = step_set(left, left_of(from), a, r);
    let s = step_set(right, right_of(from), a, r);
    put(to, p, s);
}

// Whether at atom a a left word may end and no right word, where one of p was read last on the left and one of s on the right.
fn refutes(left: &Table, right: &Table, p: u64, s: u64, a: usize) -> bool
    ensures { result ≡ (ends_set left.now p a && not (ends_set right.now s a)) }
{
    if ends_set(left, p, a) {
        return !ends_set(right, s, a);
    }
    false
}

// Whether this is so at some atom of a set.
fn some_refutes(left: &Table, right: &Table, p: u64, s: u64, atoms: u64) -> bool
    ensures { result ≡ some (λ a. ends_set left.now p a && not (ends_set right.now s a)) (members atoms) }
{
    let mut rest = atoms;
    while rest != 0 {
        let a = u64::trailing_zeros(rest) as usize;
        if refutes(left, right, p, s, a) {
            return true;
        }
        rest = rest & (rest - 1);
    }
    false
}

// Whether the standing completes a refuting word.
pub fn completes(left: &Table, right: &Table, live: u64, at: &Cells) -> bool
    requires { (i : ℕ) → get_or (take PATH-CELLS at.now) i 0 < CELL }
    ensures { result ≡ not (is_empty (path_finals left.now right.now live (take PATH-CELLS at.now))) }
{
    some_refutes(left, right, left_of(at), right_of(at), live)
}

// Whether it completes one with atom a.
pub fn completes_with(left: &Table, right: &Table, live: u64, at: &Cells, a: usize) -> bool
    requires { (i : ℕ) → get_or (take PATH-CELLS at.now) i 0 < CELL }
    ensures { result ≡ member a (path_finals left.now right.now live (take PATH-CELLS at.now)) }
{
    if member(live, a) {
        return refutes(left, right, left_of(at), right_of(at), a);
    }
    false
}
