// One part of a sheet, on a decision and from any start: what it says and whether it passes. (Document 01, "Sheet and graph bytes" and
// refusals 13 and 14.) The index over the standings is this call's own, two local arrays.
#![tactic(auto)]

ghost use Rattle.std.specs.Prelude.{ℕ, ◌-◌, ◌≤◌, ◌≡◌, length, take, drop};
ghost use Rattle.claims.specs.Sides.{Decision};
ghost use Rattle.claims.specs.SheetReading.{part_in};
ghost use Rattle.claims.specs.Passing.{refuting};
ghost use Rattle.query.specs.Decided.{Decided};
ghost use Rattle.sheet_standings.specs.CellSystem.{cell_system};
ghost use Rattle.sheet_word.specs.ByteWords.{word_read};
ghost use Rattle.sheet_part.specs.Tests.{Tests, FewFields};

use layout::MOST_STANDINGS;
use query::Facts;
use sheet_fields::PartRead;
use sheet_index::SLOTS;
use sheet_listed::Listing;
use side_tables::Table;

// Says proved or refuted; whether it passes, how many fields it has, and where the next one would start.
#[derive(Clone, Copy)]
pub enum Tested {
    Proved(bool, usize, usize),
    Refuted(bool, usize, usize),
}

// Whether the word in the sheet refutes; its bytes lie in the sheet.
fn word_refutes(f: Facts, left: &Table, right: &Table, sheet: &[u8], from: usize, to: usize) -> bool
    requires { (from ≤ to) × (to ≤ length sheet.now) }
    ensures { result ≡ refuting (cell_system f.ring f.right f.live f.relations left.now right.now)
        (word_read (take (to - from) (drop from sheet.now))) }
{
    sheet_word::refutes(f, left, right, &sheet[from..to])
}

// The part that begins at place at of the sheet, for a decision by its facts and the tables of its two sides; or how many good fields stand
// before the first wrong one.
pub fn part(f: Facts, left: &Table, right: &Table, sheet: &[u8], at: usize) -> Result<Tested, usize>
    ensures few { FewFields result }
    ensures tested { (D : Decision) → Decided f left.now right.now D
        → (k : ℕ) → Tests D sheet.now k (part_in D k (drop at sheet.now)) result }
{
    let mut heads = [0u64; SLOTS];
    let mut chain = [0u64; MOST_STANDINGS];
    let said = sheet_fields::part_at(f, sheet, at, &mut heads, &mut chain)?;
    match said {
        PartRead::Proved(base, n, next) => {
            let listed = Listing {
                facts: f,
                base,
                count: n,
            };
            let passes = sheet_proves::proves(listed, left, right, sheet, &heads, &chain);
            Ok(Tested::Proved(passes, n + 1, next))
        }
        PartRead::Refuted(from, to) => {
            let passes = word_refutes(f, left, right, sheet, from, to);
            Ok(Tested::Refuted(passes, 2, to))
        }
    }
}
