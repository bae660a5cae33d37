// The masks of the letters to try: for each relation the live atoms such that no lower live atom is alike before it. (Document 01,
// "Standings".) At alike atoms the tables of the two sides lead to the same occurrences, and in a ring claim the same right words may end, so that
// the search tries the lowest of them alone.
#![tactic(auto)]

ghost use Rattle.std.specs.Prelude.{◌≡◌, cond, true, length};
ghost use Rattle.standings.specs.Alike.{row_alike, rows_alike, ends_alike};
ghost use Rattle.memory.specs.Memory.{words};
ghost use Rattle.search_alike.specs.Masks.{alike_words, lowest_words, mask_of, mask_at, masks_of};

use bits::{below, marked};
use memory::least;
use search_standings::Shape;
use search_steps::{enders_at, null_at, step_from};
use side_tables::Table;

// Whether the same occurrences that read r may come next after p at atom a and at atom b.
fn row_alike(table: &Table, r: usize, a: usize, b: usize, p: usize) -> bool
    ensures { result ≡ row_alike table.now r a b p }
{
    step_from(table, p, a, r) == step_from(table, p, b, r)
}

// Whether that is so after each p, from 0 to n.
fn rows_alike(table: &Table, n: usize, r: usize, a: usize, b: usize) -> bool
    ensures { result ≡ rows_alike table.now n r a b }
{
    let end = least(n, 64) + 1;
    (0..end).all(|p| row_alike(table, r, a, b, p))
}

// Whether both or neither of the single atoms are words, and the same occurrences may be last.
fn ends_alike(table: &Table, a: usize, b: usize) -> bool
    ensures { result ≡ ends_alike table.now a b }
{
    if null_at(table, a) != null_at(table, b) {
        return false;
    }
    enders_at(table, a) == enders_at(table, b)
}

// The same in a ring claim; a path claim does not ask.
fn ring_ends_alike(ring: bool, table: &Table, a: usize, b: usize) -> bool
    ensures { result ≡ cond ring (ends_alike table.now a b) true }
{
    if ring { ends_alike(table, a, b) } else { true }
}

// Whether atoms a and b are alike before r; n left occurrences.
fn alike(k: Shape, n: usize, left: &Table, right: &Table, r: usize, a: usize, b: usize) -> bool
    ensures { result ≡ alike_words k n left.now right.now r a b }
{
    let ends = ring_ends_alike(k.ring, right, a, b);
    if !ends {
        return false;
    }
    let rows = rows_alike(left, n, r, a, b);
    if !rows {
        return false;
    }
    rows_alike(right, k.right, r, a, b)
}

// Whether no live atom below a is alike before r.
fn lowest(k: Shape, n: usize, left: &Table, right: &Table, r: usize, a: usize) -> bool
    ensures { result ≡ lowest_words k n left.now right.now r a }
{
    let mut rest = k.live & below(a);
    while rest != 0 {
        let b = u64::trailing_zeros(rest) as usize;
        if alike(k, n, left, right, r, a, b) {
            return false;
        }
        rest = rest & (rest - 1);
    }
    true
}

// The live atoms to try before r.
fn mask_of(k: Shape, n: usize, left: &Table, right: &Table, r: usize) -> u64
    ensures { result ≡ mask_of k n left.now right.now r }
{
    let mut rest = k.live;
    let mut mask: u64 = 0;
    while rest != 0 {
        let a = u64::trailing_zeros(rest) as usize;
        let kept = lowest(k, n, left, right, r, a);
        mask = marked(mask, a, kept);
        rest = rest & (rest - 1);
    }
    mask
}

// The mask of relation r, which is empty where there is no such relation.
fn mask_at(k: Shape, n: usize, left: &Table, right: &Table, r: usize) -> u64
    ensures { result ≡ mask_at k n left.now right.now r }
{
    if r < k.relations {
        mask_of(k, n, left, right, r)
    } else {
        0
    }
}

// For each relation the live atoms such that no lower live atom is alike before it; n left occurrences.
pub fn masks(k: Shape, n: usize, left: &Table, right: &Table, out: &mut [u64; 16])
    ensures { out.new ≡ masks_of k n left.now right.now }
{
    for (r, word) in out.iter_mut().enumerate() {
        *word = mask_at(k, n, left, right, r);
    }
}

// All live atoms for each relation: at level 1 of a ring claim none is left out.
pub fn all_live(live: u64, out: &mut [u64; 16])
    ensures { out.new ≡ words 16 (λ r. live) }
{
    out.fill(live);
}
