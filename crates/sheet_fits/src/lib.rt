// What the contents of a field may be: a verdict, or a standing that a sheet may list next. (Document 01, "Sheet and graph bytes" and refusal
// 13.) A standing has its length, nothing in it is too large, and it is none of those before it. A set bit for an occurrence that its side lacks,
// or anything in such a row, is too large; so are bit 0 in a row of M and anything in row 0 of N. The functions on cells require that each has four
// bytes, as they are read from a sheet: two of them are then a word of 64 bits.
#![tactic(auto)]

ghost use Rattle.std.specs.Prelude.{suc, ◌+◌, ◌^◌, ◌≤◌, ◌<◌, ◌*◌, ◌≡◌, true, false, ltb, eqb, get_or, take, drop, length};
ghost use Rattle.claims.specs.SheetReading.{row_of_m, row_of_n, rows_pass};
ghost use Rattle.sheet_standings.specs.Layout.{cell_count, wide, field_length, listed_cells, CELL, CELLS, N-AT, PATH-CELLS};
ghost use Rattle.sheet_standings.specs.PathCells.{path_fits};
ghost use Rattle.sheet_standings.specs.RingCells.{ring_fits};
ghost use Rattle.sheet_standings.specs.CellSystem.{cells_fit};
ghost use Rattle.claims.specs.Fields.{next_field};
ghost use Rattle.claims.specs.SheetBytes.{contents_length};
ghost use Rattle.sheet_index.specs.Index.{Indexed};
ghost use Rattle.layout.specs.Layout.{MOST-STANDINGS, WIDTH};
ghost use Rattle.sheet_fits.specs.Small.{SmallCells};
ghost use Rattle.sheet_fits.specs.inner.Rows.{row_of};
ghost use Rattle.sheet_fits.specs.inner.Steps.{verdict_of, sized, may_list};

use layout::{PATH_CONTENTS, RING_CONTENTS, WIDTH};
use memory::{least, wide};
use query::Facts;
use sheet_index::{Chain, Heads};
use sheet_standings::{CELL, CELLS, Cells, M_AT, N_AT};

// What a sheet may say.
#[derive(Clone, Copy, PartialEq, Eq)]
pub enum Verdict {
    Proved,
    Refuted,
}

// Whether the set has no bit from n on.
fn below(s: u64, n: usize) -> bool
    ensures { result ≡ ltb s (2 ^ n) }
{
    s <= bits::below(n)
}

// Whether the row has no bit above r.
fn row_below(m: u64, r: usize) -> bool
    ensures { result ≡ ltb m (2 ^ suc r) }
{
    below(m, least(r, 63) + 1)
}

// Whether row p of M is as it may be, with r right occurrences.
fn row_of_m(r: usize, p: usize, m: u64) -> bool
    ensures { result ≡ row_of_m r p m }
{
    if r < p {
        return m == 0;
    }
    if m % 2 != 0 {
        return false;
    }
    row_below(m, r)
}

// Whether row q of N is as it may be.
fn row_of_n(r: usize, q: usize, m: u64) -> bool
    ensures { result ≡ row_of_n r q m }
{
    if q == 0 {
        return m == 0;
    }
    if r < q {
        return m == 0;
    }
    row_below(m, r)
}

// A row of M, or of N.
fn row_fits(upper: bool, r: usize, p: usize, m: u64) -> bool
    ensures { result ≡ row_of upper r p m }
{
    if upper {
        return row_of_n(r, p, m);
    }
    row_of_m(r, p, m)
}

// The rows of M, or of N, from cell `from` on.
fn rows_fit(upper: bool, r: usize, s: &Cells, from: usize) -> bool
    requires { SmallCells CELLS s.now × (from ≤ N-AT) }
    ensures { result ≡ rows_pass (row_of upper r) 0 (take WIDTH (drop from (take CELLS s.now))) }
{
    for p in 0..WIDTH {
        if !row_fits(upper, r, p, s[from + p]) {
            return false;
        }
    }
    true
}

// The word that two cells are.
fn word_at(s: &Cells, i: usize) -> u64
    requires { (i + 1 < CELLS) × (get_or s.now i 0 < CELL) × (get_or s.now (i + 1) 0 < CELL) }
    ensures { result ≡ wide s.now i }
{
    s[i] * CELL + s[i + 1]
}

// A path standing, with l left and r right occurrences.
fn path_fits(l: usize, r: usize, s: &Cells) -> bool
    requires { SmallCells PATH-CELLS s.now }
    ensures { result ≡ path_fits l r (take PATH-CELLS s.now) }
{
    let p = word_at(s, 0);
    if !below(p, l) {
        return false;
    }
    let q = word_at(s, 2);
    below(q, r)
}

// A ring standing.
fn ring_fits(atoms: usize, l: usize, r: usize, s: &Cells) -> bool
    requires { SmallCells CELLS s.now }
    ensures { result ≡ ring_fits atoms l r (take CELLS s.now) }
{
    let head = s[0];
    if atoms <= (head / 256 % 256) as usize {
        return false;
    }
    if 1 < head % 256 {
        return false;
    }
    let p = word_at(s, 1);
    if !below(p, l) {
        return false;
    }
    if !rows_fit(false, r, s, M_AT) {
        return false;
    }
    rows_fit(true, r, s, N_AT)
}

// Whether the cells are a standing that a sheet may list, by the kind of the claim, the number of atoms and of the occurrences of the two sides.
fn fits(ring: bool, atoms: usize, l: usize, r: usize, s: &Cells) -> bool
    requires { SmallCells (cell_count ring) s.now }
    ensures { result ≡ cells_fit ring atoms l r (take (cell_count ring) s.now) }
{
    if ring {
        return ring_fits(atoms, l, r, s);
    }
    path_fits(l, r, s)
}

// The verdict that the contents of its field are, 1 for proved and 2 for refuted.
pub fn read_verdict(contents: &[u8]) -> Option<Verdict>
    ensures { result ≡ verdict_of contents.now }
{
    match contents {
        [1] => Some(Verdict::Proved),
        [2] => Some(Verdict::Refuted),
        _ => None,
    }
}

// Whether contents of so many bytes are as long as a standing's.
pub fn is_sized(size: usize, ring: bool) -> bool
    ensures { result ≡ eqb size (contents_length ring) }
{
    if ring {
        return size == RING_CONTENTS;
    }
    size == PATH_CONTENTS
}

// Whether the field at a place, which is as long as a standing's, is that of a standing which may be listed as number n: with nothing too
// large, and none of those before it. The index is that of the standings before it, which lie in the sheet.
pub fn may_list(
    f: Facts,
    sheet: &[u8],
    base: usize,
    heads: &Heads,
    chain: &Chain,
    n: usize,
    at: usize,
) -> bool
    requires { Indexed heads.now chain.now (listed_cells f.ring sheet.now base) n × (n ≤ MOST-STANDINGS)
        × (base + field_length f.ring * n ≤ length sheet.now) × (sized f.ring (next_field (drop at sheet.now)) ≡ true) }
    ensures { result ≡ may_list f.ring f.atoms f.left f.right sheet.now base n at }
{
    let mut cells = [0u64; CELLS];
    sheet_load::load(sheet, at, f.ring, &mut cells);
    if !fits(f.ring, f.atoms, f.left, f.right, &cells) {
        return false;
    }
    sheet_index::find(sheet, base, f.ring, heads, chain, n, &cells).is_none()
}
