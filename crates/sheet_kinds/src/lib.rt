// Standings on cells by the kind of the claim, path or ring: read from the sheet, begun, one letter on, and what completes a refuting word.
// (Document 01, "Standings" and "Sheet and graph bytes".) Of the cells that are held the first PATH_CELLS, or all, count. What is required of cells is
// that each has four bytes, as those of a sheet and of a step have.
#![tactic(auto)]

ghost use Rattle.std.specs.Prelude.{ℕ, ◌<◌, ◌≡◌, not, get_or, take};
ghost use Rattle.kat.specs.Lists.{is_empty, member};
ghost use Rattle.sheet_standings.specs.Layout.{cell_count, CELL};
ghost use Rattle.sheet_standings.specs.CellSystem.{begin_cells, onward_cells, finals_cells};

use sheet_standings::Cells;
use side_tables::Table;

// The standing of a prefix of one relation. A first atom has a byte.
pub fn begin(ring: bool, left: &Table, right: &Table, a: usize, r: usize, to: &mut Cells)
    requires { a < 256 }
    ensures begun { (n live relations : ℕ) → take (cell_count ring) to.new
        ≡ begin_cells ring n live relations left.now right.now (record { atom = a; relation = r }) }
    ensures small { (i : ℕ) → get_or (take (cell_count ring) to.new) i 0 < CELL }
{
    if ring {
        sheet_ring::begin(left, right, a, r, to);
        return;
    }
    sheet_path::begin(left, right, a, r, to);
}

// The standing of a prefix one relation longer.
pub fn onward(
    ring: bool,
    left: &Table,
    right: &Table,
    from: &Cells,
    a: usize,
    r: usize,
    to: &mut Cells,
)
    requires { (i : ℕ) → get_or (take (cell_count ring) from.now) i 0 < CELL }
    ensures grown { (n live relations : ℕ) → take (cell_count ring) to.new
        ≡ onward_cells ring n live relations left.now right.now (take (cell_count ring) from.now) (record { atom = a; relation = r }) }
    ensures small { (i : ℕ) → get_or (take (cell_count ring) to.new) i 0 < CELL }
{
    if ring {
        let all = &from[..];
        sheet_ring::onward(left, right, from, a, r, to);
        return;
    }
    sheet_path::onward(left, right, from, a, r, to);
}

// Whether the standing completes a refuting word; n right occurrences.
pub fn completes(ring: bool, n: usize, live: u64, left: &Table, right: &Table, s: &Cells) -> bool
    requires { (i : ℕ) → get_or (take (cell_count ring) s.now) i 0 < CELL }
    ensures { (relations : ℕ) → result
        ≡ not (is_empty (finals_cells ring n live relations left.now right.now (take (cell_count ring) s.now))) }
{
    if ring {
        let all = &s[..];
        return sheet_cover::completes(left, right, n, live, s);
    }
    sheet_path::completes(left, right, live, s)
}

// Whether it completes one with atom a; n right occurrences.
pub fn completes_with(
    ring: bool,
    n: usize,
    live: u64,
    left: &Table,
    right: &Table,
    s: &Cells,
    a: usize,
) -> bool
    requires { (i : ℕ) → get_or (take (cell_count ring) s.now) i 0 < CELL }
    ensures { (relations : ℕ) → result
        ≡ member a (finals_cells ring n live relations left.now right.now (take (cell_count ring) s.now)) }
{
    if ring {
        let all = &s[..];
        return sheet_cover::completes_with(left, right, n, live, s, a);
    }
    sheet_path::completes_with(left, right, live, s, a)
}
