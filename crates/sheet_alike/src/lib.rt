// The masks of the letters to try: of atoms that are alike before a relation the sheet check tries the lowest alone, since all of them lead to
// the same standings. (Document 01, "Standings".) Two atoms are alike where the tables of the two sides lead to the same occurrences from them; in a
// ring claim also the right words that end there are the same.
#![tactic(auto)]

ghost use Rattle.std.specs.Prelude.{◌≡◌, cond, true, length};
ghost use Rattle.standings.specs.Alike.{row_alike, rows_alike, ends_alike};
ghost use Rattle.memory.specs.Memory.{words};
ghost use Rattle.sheet_alike.specs.Masks.{alike_words, lowest_words, mask_of, mask_at, masks_of};

use bits::{below, marked};
use codes::MOST_RELATIONS;
use query::Facts;
use sheet_steps::{enders_at, null_at, step_from};
use side_tables::Table;

// For each relation the atoms to try before it.
pub type Masks = [u64; MOST_RELATIONS];

// Whether the same occurrences that read r may come next after p at atom a and at atom b.
fn row_alike(table: &Table, r: usize, a: usize, b: usize, p: usize) -> bool
    ensures { result ≡ row_alike table.now r a b p }
{
    step_from(table, p, a, r) == step_from(table, p, b, r)
}

// Whether that is so after each p, from 0 to n.
fn rows_alike(table: &Table, n: usize, r: usize, a: usize, b: usize) -> bool
    ensures { result ≡ rows_alike table.now n r a b }
{
    let end = n.min(64) + 1;
    for p in 0..end {
        if !row_alike(table, r, a, b, p) {
            return false;
        }
    }
    true
}

// Whether both or neither of the single atoms are words, and the same occurrences may be last.
fn ends_alike(table: &Table, a: usize, b: usize) -> bool
    ensures { result ≡ ends_alike table.now a b }
{
    if null_at(table, a) != null_at(table, b) {
        return false;
    }
    enders_at(table, a) == enders_at(table, b)
}

// The same in a ring claim; a path claim does not ask.
fn ring_ends_alike(ring: bool, table: &Table, a: usize, b: usize) -> bool
    ensures { result ≡ cond ring (ends_alike table.now a b) true }
{
    if ring { ends_alike(table, a, b) } else { true }
}

// Whether atoms a and b are alike before r.
fn alike(f: Facts, left: &Table, right: &Table, r: usize, a: usize, b: usize) -> bool
    ensures { result ≡ alike_words f left.now right.now r a b }
{
    let ends = ring_ends_alike(f.ring, right, a, b);
    if !ends {
        return false;
    }
    let rows = rows_alike(left, f.left, r, a, b);
    if !rows {
        return false;
    }
    rows_alike(right, f.right, r, a, b)
}

// Whether no live atom below a is alike before r.
fn lowest(f: Facts, left: &Table, right: &Table, r: usize, a: usize) -> bool
    ensures { result ≡ lowest_words f left.now right.now r a }
{
    let mut rest = f.live & below(a);
    while rest != 0 {
        let b = u64::trailing_zeros(rest) as usize;
        if alike(f, left, right, r, a, b) {
            return false;
        }
        rest = rest & (rest - 1);
    }
    true
}

// The live atoms to try before r.
fn mask_of(f: Facts, left: &Table, right: &Table, r: usize) -> u64
    ensures { result ≡ mask_of f left.now right.now r }
{
    let mut rest = f.live;
    let mut mask: u64 = 0;
    while rest != 0 {
        let a = u64::trailing_zeros(rest) as usize;
        let kept = lowest(f, left, right, r, a);
        mask = marked(mask, a, kept);
        rest = rest & (rest - 1);
    }
    mask
}

// The mask of relation r, which is empty where there is no such relation.
fn mask_at(f: Facts, left: &Table, right: &Table, r: usize) -> u64
    ensures { result ≡ mask_at f left.now right.now r }
{
    if r < f.relations {
        mask_of(f, left, right, r)
    } else {
        0
    }
}

// The masks, one after another.
fn fill(f: Facts, left: &Table, right: &Table, out: &mut [u64])
    ensures { out.new ≡ words (length out.old) (mask_at f left.now right.now) }
{
    for (r, mask) in out.iter_mut().enumerate() {
        *mask = mask_at(f, left, right, r);
    }
}

// For each relation the live atoms such that no lower live atom is alike before it.
pub fn masks(f: Facts, left: &Table, right: &Table, out: &mut Masks)
    ensures { out.new ≡ masks_of f left.now right.now }
{
    fill(f, left, right, out);
}
