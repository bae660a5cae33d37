// Whether the standings one letter on are listed in a part of a sheet. (Document 01, "Sheet and graph bytes".) The standings listed lie in
// the sheet and are found by an index; what is required of it, and that they lie there, is what the reader of the part leaves.
#![tactic(auto)]

ghost use Rattle.std.specs.Prelude.{◌<◌, ◌≡◌, take};
ghost use Rattle.sheet_standings.specs.Layout.{cell_count};
ghost use Rattle.sheet_listed.specs.Listed.{Ready, part_cells, Small, listed_among, atoms_tried, stepped, atoms_listed, letters_listed};
ghost use Rattle.sheet_listed.specs.inner.Letters.{letters_of};

use query::Facts;
use sheet_alike::Masks;
use sheet_index::{Chain, Heads, find};
use sheet_kinds::{begin, onward};
use sheet_load::possible;
use sheet_standings::{CELLS, Cells};
use side_tables::Table;

// The standings that a part of a sheet lists for a claim with these facts: the place where their fields begin, and their number.
#[derive(Clone, Copy)]
pub struct Listing {
    pub facts: Facts,
    pub base: usize,
    pub count: usize,
}

// What is tried of them: the letters of the masks, one for each relation, at level 1 (true) or behind a standing.
#[derive(Clone, Copy)]
pub struct Trial {
    pub of: Listing,
    pub masks: Masks,
    pub first: bool,
}

// The letters of one relation that are tried: at level 1 (true) or behind a standing, with each of these atoms.
#[derive(Clone, Copy)]
struct Letters {
    of: Listing,
    first: bool,
    relation: usize,
    atoms: u64,
}

// Whether the standing is listed, or no left occurrence is possible.
fn listed(l: Listing, sheet: &[u8], heads: &Heads, chain: &Chain, cells: &Cells) -> bool
    requires { Ready l.facts.ring sheet.now l.base l.count heads.now chain.now }
    ensures { result ≡ listed_among l.facts.ring (part_cells l.facts.ring sheet.now l.base l.count)
        (take (cell_count l.facts.ring) cells.now) }
{
    if !possible(l.facts.ring, cells) {
        return true;
    }
    find(sheet, l.base, l.facts.ring, heads, chain, l.count, cells).is_some()
}

// The standing of a prefix of one relation, or the one behind a standing. A cell of that standing has four bytes, and an atom has one.
fn step(l: Letters, left: &Table, right: &Table, from: &Cells, a: usize, to: &mut Cells)
    requires { Small (take (cell_count l.of.facts.ring) from.now) × (a < 256) }
    ensures { take (cell_count l.of.facts.ring) to.new
        ≡ stepped l.of.facts.ring left.now right.now l.first (take (cell_count l.of.facts.ring) from.now)
        (record { atom = a; relation = l.relation }) }
{
    if l.first {
        begin(l.of.facts.ring, left, right, a, l.relation, to);
        return;
    }
    onward(l.of.facts.ring, left, right, from, a, l.relation, to);
}

// Whether each of them leads to a standing that is listed.
fn atoms_listed(
    l: Letters,
    left: &Table,
    right: &Table,
    sheet: &[u8],
    heads: &Heads,
    chain: &Chain,
    from: &Cells,
) -> bool
    requires { Ready l.of.facts.ring sheet.now l.of.base l.of.count heads.now chain.now
        × Small (take (cell_count l.of.facts.ring) from.now) }
    ensures { result ≡ atoms_listed l.of.facts.ring left.now right.now
        (part_cells l.of.facts.ring sheet.now l.of.base l.of.count) l.first
        (take (cell_count l.of.facts.ring) from.now) l.relation l.atoms }
{
    let mut rest = l.atoms;
    let mut to = [0u64; CELLS];
    while rest != 0 {
        let a = u64::trailing_zeros(rest) as usize;
        step(l, left, right, from, a, &mut to);
        if !listed(l.of, sheet, heads, chain, &to) {
            return false;
        }
        rest = rest & (rest - 1);
    }
    true
}

// The atoms to try before relation r: in a ring claim all live ones at level 1.
fn atoms_tried(t: Trial, r: usize) -> u64
    ensures { result ≡ atoms_tried t.of.facts t.first t.masks r }
{
    if !t.first {
        return memory::word(&t.masks, r);
    }
    if t.of.facts.ring {
        t.of.facts.live
    } else {
        memory::word(&t.masks, r)
    }
}

// The letters of relation r that are tried.
fn letters_of(t: Trial, r: usize) -> Letters
    ensures { result ≡ letters_of t r }
{
    let of = t.of;
    Letters {
        of,
        first: t.first,
        relation: r,
        atoms: atoms_tried(t, r),
    }
}

// Whether every letter that is tried from a standing, or from nothing read, leads to a standing that is listed.
pub fn letters_listed(
    t: Trial,
    left: &Table,
    right: &Table,
    sheet: &[u8],
    heads: &Heads,
    chain: &Chain,
    from: &Cells,
) -> bool
    requires { Ready t.of.facts.ring sheet.now t.of.base t.of.count heads.now chain.now
        × Small (take (cell_count t.of.facts.ring) from.now) }
    ensures { result ≡ letters_listed t.of.facts left.now right.now
        (part_cells t.of.facts.ring sheet.now t.of.base t.of.count) t.first
        (take (cell_count t.of.facts.ring) from.now) t.masks }
{
    for r in 0..t.of.facts.relations {
        if !atoms_listed(letters_of(t, r), left, right, sheet, heads, chain, from) {
            return false;
        }
    }
    true
}
