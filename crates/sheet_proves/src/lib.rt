// Whether the standings listed in a part of a sheet prove. (Document 01, "Sheet and graph bytes".) No length-0 word refutes; every standing
// of level 1 is listed; from each listed one every letter leads to one that is listed; none completes a refuting word. What is required of
// the index, and that the standings lie in the sheet, is what the reader of the part leaves.
#![tactic(auto)]

ghost use Rattle.std.specs.Prelude.{◌+◌, ◌*◌, ◌^◌, ◌<◌, ◌≡◌, false, not, ◌&&◌};
ghost use Rattle.kat.specs.Lists.{is_empty};
ghost use Rattle.standings.specs.Steps.{null_at, alone_words};
ghost use Rattle.sheet_standings.specs.Layout.{field_length};
ghost use Rattle.sheet_listed.specs.Listed.{Ready, part_cells};
ghost use Rattle.sheet_proves.specs.Proves.{proves_cells};
ghost use Rattle.sheet_proves.specs.inner.Standings.{place_passes, places_pass};

use codes::MOST_RELATIONS;
use layout::{PATH_FIELD, RING_FIELD};
use sheet_index::{Chain, Heads};
use sheet_kinds::completes;
use sheet_listed::{Listing, Trial, letters_listed};
use sheet_load::load;
use sheet_standings::CELLS;
use sheet_steps::null_at;
use side_tables::Table;

// Whether the single atom a is a left word and no right word.
fn alone_refutes(left: &Table, right: &Table, a: usize) -> bool
    ensures { result ≡ (null_at left.now a && not (null_at right.now a)) }
{
    if null_at(left, a) {
        return !null_at(right, a);
    }
    false
}

// Whether no live atom refutes by itself.
fn none_alone(left: &Table, right: &Table, live: u64) -> bool
    ensures { result ≡ is_empty (alone_words left.now right.now live) }
{
    let mut rest = live;
    while rest != 0 {
        let a = u64::trailing_zeros(rest) as usize;
        if alone_refutes(left, right, a) {
            return false;
        }
        rest = rest & (rest - 1);
    }
    true
}

// Where the field of standing i begins. It lies in the sheet, so that the place is a number of the machine.
fn place(ring: bool, base: usize, i: usize) -> usize
    requires { base + field_length ring * i < 2 ^ 63 }
    ensures { result ≡ base + field_length ring * i }
{
    if ring {
        base + RING_FIELD * i
    } else {
        base + PATH_FIELD * i
    }
}

// Whether standing i, which is one of those listed, completes nothing and leads to listed ones.
fn place_passes(
    t: Trial,
    left: &Table,
    right: &Table,
    sheet: &[u8],
    heads: &Heads,
    chain: &Chain,
    i: usize,
) -> bool
    requires { Ready t.of.facts.ring sheet.now t.of.base t.of.count heads.now chain.now × (i < t.of.count) × (t.first ≡ false) }
    ensures { result ≡ place_passes t.of.facts left.now right.now sheet.now t.of.base t.of.count t.masks i }
{
    let f = t.of.facts;
    let at = place(f.ring, t.of.base, i);
    let mut s = [0u64; CELLS];
    load(sheet, at, f.ring, &mut s);
    let ends = completes(f.ring, f.right, f.live, left, right, &s);
    if ends {
        return false;
    }
    letters_listed(t, left, right, sheet, heads, chain, &s)
}

// Whether that is so for each of those listed.
fn places_pass(
    t: Trial,
    left: &Table,
    right: &Table,
    sheet: &[u8],
    heads: &Heads,
    chain: &Chain,
) -> bool
    requires { Ready t.of.facts.ring sheet.now t.of.base t.of.count heads.now chain.now × (t.first ≡ false) }
    ensures { result ≡ places_pass t.of.facts left.now right.now sheet.now t.of.base t.of.count t.masks }
{
    for i in 0..t.of.count {
        if !place_passes(t, left, right, sheet, heads, chain, i) {
            return false;
        }
    }
    true
}

// Whether the standings listed prove.
pub fn proves(
    l: Listing,
    left: &Table,
    right: &Table,
    sheet: &[u8],
    heads: &Heads,
    chain: &Chain,
) -> bool
    requires { Ready l.facts.ring sheet.now l.base l.count heads.now chain.now }
    ensures { result ≡ proves_cells l.facts left.now right.now (part_cells l.facts.ring sheet.now l.base l.count) }
{
    let none = none_alone(left, right, l.facts.live);
    if !none {
        return false;
    }
    let mut masks = [0u64; MOST_RELATIONS];
    sheet_alike::masks(l.facts, left, right, &mut masks);
    let nothing = [0u64; CELLS];
    let first = Trial {
        of: l,
        masks,
        first: true,
    };
    let begins = letters_listed(first, left, right, sheet, heads, chain, &nothing);
    if !begins {
        return false;
    }
    let later = Trial {
        of: l,
        masks,
        first: false,
    };
    places_pass(later, left, right, sheet, heads, chain)
}
