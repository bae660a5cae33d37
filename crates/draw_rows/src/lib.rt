// The edges of a drawn graph as sets: a relation is a table of 64 rows, and bit y of row x is the edge from event x to event y. (Document 01,
// "Words", Drawn graph.) The steps of a word lead from each event to the next, the last of a ring to the first; a closed relation is then
// closed. All relations are drawn into one memory before a byte is written: what an edge is is decided here alone.
#![tactic(auto)]

ghost use Rattle.std.specs.Prelude.{ℕ, ◌≤◌, ◌<◌, ◌≡◌, length};
ghost use Rattle.memory.specs.Memory.{words};
ghost use Rattle.draw_rows.specs.Rows.{event_count, next_event, step_row, relation_rows, drawn_rows, table_at};

use bits::{member, with};
use memory::wide;

// How many events the graph of a word of so many numbers has: in a line one more than its length, in a ring as many, and one for length 0.
pub fn event_count(ring: bool, size: usize) -> usize
    ensures { result ≡ event_count ring size }
{
    if ring {
        if size < 2 {
            return 1;
        }
        return size / 2;
    }
    size / 2 + 1
}

// The event after x among n events. The sum asks for a bound.
fn next_event(n: usize, x: usize) -> usize
    requires { x < 64 }
    ensures { result ≡ next_event n x }
{
    if x + 1 == n { 0 } else { x + 1 }
}

// The step from event x, where it is one of relation r. The sums ask for a bound.
fn step_row(word: &[u8], n: usize, r: usize, x: usize) -> u64
    requires { x < 64 }
    ensures { result ≡ step_row word.now n r x }
{
    let at = 2 * x + 1;
    if word.len() <= at {
        return 0;
    }
    if wide(word[at]) as usize != r {
        return 0;
    }
    with(0, next_event(n, x))
}

// The steps of relation r. The table has a row for each event there may be.
fn step_rows(word: &[u8], n: usize, r: usize, rows: &mut [u64])
    requires { length rows.old ≤ 64 }
    ensures { rows.new ≡ words (length rows.old) (step_row word.now n r) }
{
    for (x, row) in rows.iter_mut().enumerate() {
        *row = step_row(word, n, r, x);
    }
}

// The edges of relation r among n events, which is closed or not.
fn relation_rows(word: &[u8], n: usize, r: usize, closed: bool) -> [u64; 64]
    ensures { result ≡ relation_rows word.now n r closed }
{
    let mut steps = [0u64; 64];
    step_rows(word, n, r, &mut steps);
    if closed {
        return rows::plus(steps, n);
    }
    steps
}

// The edges of each relation that has a table, among n events, where `closed` has the closed relations.
pub fn fill(word: &[u8], n: usize, closed: u64, tables: &mut [[u64; 64]])
    ensures { (r : ℕ) → r < length tables.old → table_at tables.new r ≡ drawn_rows word.now n closed r }
{
    for (r, table) in tables.iter_mut().enumerate() {
        *table = relation_rows(word, n, r, member(closed, r));
    }
}

// The table of relation r, which is blank where there is none.
pub fn table(tables: &[[u64; 64]], r: usize) -> [u64; 64]
    ensures { result ≡ table_at tables.now r }
{
    if r < tables.len() {
        tables[r]
    } else {
        [0u64; 64]
    }
}
