// The word of a sheet: whether its bytes are one, atoms and relations in turn, each below its number; and whether it is a refuting word, by the
// steps and the completion of standings on cells. (Document 01, "Sheet and graph bytes" and "Standings".)
#![tactic(auto)]

ghost use Rattle.std.specs.Prelude.{◌<◌, ℕ, ◌≤◌, ◌≡◌, get_or, length, take, drop};
ghost use Rattle.kat.specs.Lists.{member};
ghost use Rattle.claims.specs.Passing.{completes, refuting};
ghost use Rattle.standings.specs.Steps.{alone_words};
ghost use Rattle.sheet_standings.specs.Layout.{cell_count, CELL};
ghost use Rattle.sheet_standings.specs.CellSystem.{begin_cells, onward_cells, cell_system};
ghost use Rattle.sheet_word.specs.ByteWords.{word_fits, word_read};

use memory::wide;
use query::Facts;
use sheet_standings::{CELLS, Cells};
use sheet_steps::null_at;
use side_tables::Table;

// Whether the bytes are a word: an odd number of them, each atom and each relation below its bound.
pub fn fits(word: &[u8], atoms: usize, relations: usize) -> bool
    ensures { result ≡ word_fits atoms relations word.now }
{
    let mut i = 0;
    while 1 < word.len() - i {
        if atoms <= wide(word[i]) as usize {
            return false;
        }
        if relations <= wide(word[i + 1]) as usize {
            return false;
        }
        i += 2;
    }
    if i < word.len() {
        return (wide(word[i]) as usize) < atoms;
    }
    false
}

// The number at a place of the word; past its end it is 0.
fn number_at(word: &[u8], i: usize) -> usize
    ensures { (result ≡ get_or word.now i 0) × (result < 256) }
{
    if i < word.len() {
        return wide(word[i]) as usize;
    }
    0
}

// Whether the atom is a refuting word of length 0.
fn is_alone(live: u64, left: &Table, right: &Table, a: usize) -> bool
    ensures { result ≡ member a (alone_words left.now right.now live) }
{
    if !bits::member(live, a) {
        return false;
    }
    if !null_at(left, a) {
        return false;
    }
    !null_at(right, a)
}

// The standing of a prefix of one relation. The first atom has a byte.
fn begun(ring: bool, left: &Table, right: &Table, a: usize, r: usize) -> Cells
    requires { a < 256 }
    ensures { ((n live relations : ℕ) → take (cell_count ring) result
        ≡ begin_cells ring n live relations left.now right.now (record { atom = a; relation = r }))
        × ((i : ℕ) → get_or (take (cell_count ring) result) i 0 < CELL) }
{
    let mut t = [0u64; CELLS];
    sheet_kinds::begin(ring, left, right, a, r, &mut t);
    t
}

// The standing one letter on. A cell has four bytes.
fn stepped(ring: bool, left: &Table, right: &Table, s: Cells, a: usize, r: usize) -> Cells
    requires { (i : ℕ) → get_or (take (cell_count ring) s) i 0 < CELL }
    ensures { ((n live relations : ℕ) → take (cell_count ring) result
        ≡ onward_cells ring n live relations left.now right.now (take (cell_count ring) s) (record { atom = a; relation = r }))
        × ((i : ℕ) → get_or (take (cell_count ring) result) i 0 < CELL) }
{
    let mut t = [0u64; CELLS];
    sheet_kinds::onward(ring, left, right, &s, a, r, &mut t);
    t
}

// Whether the word from place `from` on completes a refuting word, after a prefix with the standing s. A cell has four bytes.
fn completing(f: Facts, left: &Table, right: &Table, word: &[u8], from: usize, s: Cells) -> bool
    requires { ((i : ℕ) → get_or (take (cell_count f.ring) s) i 0 < CELL) × (from ≤ length word.now) }
    ensures { result ≡ completes (cell_system f.ring f.right f.live f.relations left.now right.now)
        (take (cell_count f.ring) s) (word_read (drop from word.now)) }
{
    let mut t = s;
    let mut i = from;
    while 1 < word.len() - i {
        let a = number_at(word, i);
        if !bits::member(f.live, a) {
            return false;
        }
        let r = number_at(word, i + 1);
        t = stepped(f.ring, left, right, t, a, r);
        i += 2;
    }
    let last = number_at(word, i);
    sheet_kinds::completes_with(f.ring, f.right, f.live, left, right, &t, last)
}

// Whether the word that the bytes are is a refuting word, by the tables of the two sides.
pub fn refutes(f: Facts, left: &Table, right: &Table, word: &[u8]) -> bool
    ensures { result ≡ refuting (cell_system f.ring f.right f.live f.relations left.now right.now)
        (word_read word.now) }
{
    let a = number_at(word, 0);
    if word.len() < 2 {
        return is_alone(f.live, left, right, a);
    }
    if !bits::member(f.live, a) {
        return false;
    }
    let r = number_at(word, 1);
    let s = begun(f.ring, left, right, a, r);
    completing(f, left, right, word, 2, s)
}
