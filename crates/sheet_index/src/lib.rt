// An index over the standings that a part of a sheet lists, so that the check finds one without looking at all. `heads` has for each slot
// 1 + the number of the last standing that fell into it, `chain` for each standing 1 + the number of the one before it in its slot; 0 is none. The
// slot is a hash of all cells of a standing. Nothing is copied: cells are read where they lie in the sheet. A sheet may put all of its
// standings into one slot; then a lookup compares with each of them.
// That the standings lie in the sheet is required because whoever lists them has read them there; that there are no more than
// MOST_STANDINGS, because a sheet with more is refused.
#![tactic(auto)]

ghost use Rattle.std.specs.Prelude.{suc, ◌+◌, ◌*◌, ◌≤◌, ◌<◌, ◌≡◌, length, take};
ghost use Rattle.fields.specs.Places.{cells_at};
ghost use Rattle.sheet_standings.specs.Layout.{cell_count, field_length, cell_start, listed_cells, CELLS};
ghost use Rattle.claims.specs.Bytes.{same};
ghost use Rattle.layout.specs.Layout.{MOST-STANDINGS};
ghost use Rattle.sheet_index.specs.Index.{mixed, slot_of, last_where, numbered, Indexed, SLOTS};

use layout::{HEADER, MOST_STANDINGS, PATH_FIELD, RING_FIELD};
use sheet_standings::{CELLS, Cells, PATH_CELLS};

// The slots.
pub const SLOTS: usize = 8192;

// For each slot the last standing in it.
pub type Heads = [u64; SLOTS];

// For each standing the one before it in its slot.
pub type Chain = [u64; MOST_STANDINGS];

// A hash with one cell more. The hash is kept below 2^32, so that the product fits.
fn mixed(h: u64, c: u64) -> u64
    requires { h < 4294967296 }
    ensures { (result ≡ mixed h c) × (result < 4294967296) }
{
    (h + c % 4294967296) * 2146121005 / 1048576 % 4294967296
}

// The number of cells of a standing.
fn count(ring: bool) -> usize
    ensures { (result ≡ cell_count ring) × (result ≤ CELLS) }
{
    if ring {
        return CELLS;
    }
    PATH_CELLS
}

// The place in the sheet at which the cells of standing i begin.
fn begin(sheet: &[u8], base: usize, ring: bool, i: usize) -> usize
    requires { base + field_length ring * suc i ≤ length sheet.now }
    ensures { (result ≡ base + field_length ring * i + cell_start ring) × (result + 4 * cell_count ring ≤ length sheet.now) }
{
    if ring {
        return base + RING_FIELD * i + 1;
    }
    base + PATH_FIELD * i + HEADER
}

// The slot of n cells in the sheet.
fn slot_at(sheet: &[u8], from: usize, n: usize) -> usize
    requires { from + 4 * n ≤ length sheet.now }
    ensures { (result ≡ slot_of (cells_at sheet.now from n)) × (result < SLOTS) }
{
    let mut h: u64 = 0;
    for j in 0..n {
        h = mixed(h, fields::cell_within(sheet, from + 4 * j));
    }
    (h as usize) % SLOTS
}

// The slot of the first n cells of a candidate.
fn slot_of(cells: &[u64], n: usize) -> usize
    requires { n ≤ length cells.now }
    ensures { (result ≡ slot_of (take n cells.now)) × (result < SLOTS) }
{
    let mut h: u64 = 0;
    for c in &cells[..n] {
        h = mixed(h, *c);
    }
    (h as usize) % SLOTS
}

// Whether n cells in the sheet are the first n of a candidate.
fn equal_at(sheet: &[u8], from: usize, n: usize, cells: &[u64]) -> bool
    requires { (from + 4 * n ≤ length sheet.now) × (n ≤ length cells.now) }
    ensures { result ≡ same (cells_at sheet.now from n) (take n cells.now) }
{
    for (j, c) in cells[..n].iter().enumerate() {
        if fields::cell_within(sheet, from + 4 * j) != *c {
            return false;
        }
    }
    true
}

// The number of the last standing listed that has these cells: only those in the slot of the candidate are looked at.
pub fn find(
    sheet: &[u8],
    base: usize,
    ring: bool,
    heads: &Heads,
    chain: &Chain,
    n: usize,
    cells: &Cells,
) -> Option<usize>
    requires { Indexed heads.now chain.now (listed_cells ring sheet.now base) n × (n ≤ MOST-STANDINGS)
        × (base + field_length ring * n ≤ length sheet.now) }
    ensures { result
        ≡ numbered (last_where (λ i. same (listed_cells ring sheet.now base i) (take (cell_count ring) cells.now)) n) }
{
    let k = count(ring);
    let mut place = heads[slot_of(cells, k)] as usize;
    while 0 < place {
        let i = place - 1;
        let from = begin(sheet, base, ring, i);
        if equal_at(sheet, from, k, cells) {
            return Some(i);
        }
        place = chain[i] as usize;
    }
    None
}

// Standing n taken into the index of those before it.
pub fn add(sheet: &[u8], base: usize, ring: bool, heads: &mut Heads, chain: &mut Chain, n: usize)
    requires { Indexed heads.old chain.old (listed_cells ring sheet.now base) n × (n < MOST-STANDINGS)
        × (base + field_length ring * suc n ≤ length sheet.now) }
    ensures { Indexed heads.new chain.new (listed_cells ring sheet.now base) (suc n) }
{
    let from = begin(sheet, base, ring, n);
    let k = count(ring);
    let slot = slot_at(sheet, from, k);
    chain[n] = heads[slot];
    heads[slot] = (n + 1) as u64;
}
