// The cells of a listed standing, loaded from the sheet, and whether a left occurrence is possible after a standing. (Document 01, "Sheet and
// graph bytes".)
#![tactic(auto)]

ghost use Rattle.std.specs.Prelude.{◌+◌, ◌*◌, ◌≤◌, ◌<◌, ◌≡◌, not, eqb, ◌++◌, length, take, drop};
ghost use Rattle.fields.specs.Places.{cells_at};
ghost use Rattle.sheet_standings.specs.Layout.{standing_cells, cell_count, CELL, CELLS, PATH-CELLS};
ghost use Rattle.sheet_standings.specs.CellSystem.{left_set};
ghost use Rattle.layout.specs.Layout.{HEADER};

use layout::HEADER;
use memory::least;
use sheet_standings::{Cells, PATH_CELLS};

// As many cells as there is room for, from place at of the sheet, which lies in it or little behind.
fn fill(sheet: &[u8], at: usize, to: &mut [u64])
    requires { (at ≤ length sheet.now + HEADER) × (length to.old ≤ CELLS) }
    ensures { to.new ≡ cells_at sheet.now at (length to.old) }
{
    for (j, cell) in to.iter_mut().enumerate() {
        *cell = fields::cell(sheet, at + 4 * j);
    }
}

// The cells of a path standing; no other is touched.
fn fill_four(sheet: &[u8], at: usize, to: &mut [u64])
    requires { (at ≤ length sheet.now + HEADER) × (length to.old ≡ CELLS) }
    ensures { to.new ≡ cells_at sheet.now at PATH-CELLS ++ drop PATH-CELLS to.old }
{
    fill(sheet, at, &mut to[0..PATH_CELLS]);
}

// The standing whose field begins at place at of the sheet.
pub fn load(sheet: &[u8], at: usize, ring: bool, to: &mut Cells)
    ensures { take (cell_count ring) to.new ≡ standing_cells ring sheet.now at }
{
    let from = least(at, sheet.len());
    if ring {
        fill(sheet, from + 1, to);
        return;
    }
    fill_four(sheet, from + HEADER, to);
}

// Whether a left occurrence is possible.
pub fn possible(ring: bool, s: &Cells) -> bool
    ensures { result ≡ not (eqb (left_set ring (take (cell_count ring) s.now)) 0) }
{
    if ring {
        return either(s[1], s[2]);
    }
    either(s[0], s[1])
}

// Whether one of two cells is not 0.
fn either(high: u64, low: u64) -> bool
    ensures { result ≡ not (eqb (high * CELL + low) 0) }
{
    if high != 0 {
        return true;
    }
    low != 0
}
