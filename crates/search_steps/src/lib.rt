// One letter on, for a set of occurrences as a machine word, by the table of a side; and whether a word may end. (Document 01,
// "Standings".) Path and ring claims share these functions. A number past the table's end gives the empty set.
#![tactic(auto)]

ghost use Rattle.std.specs.Prelude.{◌+◌, ◌*◌, ◌≤◌, min, ◌≡◌, length, get_or};
ghost use Rattle.standings.specs.Steps.{step_from, step_set, enders, ends_set, null_at};
ghost use Rattle.side_tables.specs.Layout.{TABLE, ROW};

use memory::{least, word};
use side_tables::{ENDS, LETTERS, NULL, ROW, TABLE, Table};

// The word at place base + k of the table.
fn word_behind(table: &[u64], base: usize, k: usize) -> u64
    requires { (length table.now ≡ TABLE) × (base ≤ TABLE) }
    ensures { result ≡ get_or table.now (base + k) 0 }
{
    if k < TABLE { word(table, base + k) } else { 0 }
}

// Where the steps at atom a begin in the table, or its end.
fn steps_at(a: usize) -> usize
    ensures { result ≡ min (ROW * a) TABLE }
{
    if a < 66 { least(ROW * a, TABLE) } else { TABLE }
}

// What may have been read of one letter, where p was read last (0: nothing yet).
pub fn step_from(table: &Table, p: usize, a: usize, r: usize) -> u64
    ensures { result ≡ step_from table.now p a r }
{
    let from = steps_at(a);
    let next = word_behind(table, from, p);
    let readers = word_behind(table, LETTERS, r);
    next & readers
}

// What may have been read one letter on, where one of the set s was read last: the union of its rows, cut by the letter.
pub fn step_set(table: &Table, s: u64, a: usize, r: usize) -> u64
    ensures { result ≡ step_set table.now s a r }
{
    let from = least(steps_at(a) + 1, TABLE);
    let to = least(from + 64, TABLE);
    let all = &table[..];
    let reached = bits::union_rows(&all[from..to], s);
    let readers = word_behind(all, LETTERS, r);
    reached & readers
}

// The occurrences at which a word may end at atom a.
pub fn enders_at(table: &Table, a: usize) -> u64
    ensures { result ≡ enders table.now a }
{
    word_behind(table, ENDS, a)
}

// Whether one of the set s may be read last at atom a.
pub fn ends_set(table: &Table, s: u64, a: usize) -> bool
    ensures { result ≡ ends_set table.now s a }
{
    let enders = enders_at(table, a);
    (s & enders) != 0
}

// Whether the single atom a is a word.
pub fn null_at(table: &Table, a: usize) -> bool
    ensures { result ≡ null_at table.now a }
{
    bits::member(word(table, NULL), a)
}
