// The answer to a sheet on a decision: what the passing sheet says, or 13 and 14. (Document 01, "Sheet and graph bytes" and "Refusals with an
// example each".) What `sheet` and `draw` do with a query that was read.
#![tactic(auto)]

ghost use Rattle.std.specs.Prelude.{◌≡◌};
ghost use Rattle.claims.specs.Sides.{Decision};
ghost use Rattle.claims.specs.Calls.{checked};
ghost use Rattle.query.specs.Decided.{Decided};
ghost use Rattle.sheet_checked.specs.Checks.{Says};
ghost use Rattle.sheet_checked.specs.inner.Ended.{ended};

use query::Facts;
use refusals::Reason;
use sheet_part::Tested;
use side_tables::Table;

// The sheet passes and says proved, or refuted; or the reason and the place of a refusal.
#[derive(Clone, Copy)]
pub enum Checked {
    Proved,
    Refuted,
    Refused(Reason, usize),
}

// The answer to a sheet whose part says proved or not, passes or not, and ends at place next: nothing may follow, which would be the field of
// this number.
fn answer(proved: bool, passes: bool, field: usize, next: usize, end: usize) -> Checked
    ensures { result ≡ ended proved passes field next end }
{
    if next < end {
        return Checked::Refused(Reason::SheetField, field);
    }
    if passes {
        if proved {
            return Checked::Proved;
        }
        return Checked::Refuted;
    }
    Checked::Refused(Reason::DoesNotPass, 0)
}

// Checks a sheet for a decision by its facts and the tables of its two sides: one part from its start, of n fields, and nothing behind it.
pub fn check_decided(f: Facts, left: &Table, right: &Table, sheet: &[u8]) -> Checked
    ensures { (D : Decision) → Decided f left.now right.now D → Says (checked D sheet.now) result }
{
    let end = sheet.len();
    match sheet_part::part(f, left, right, sheet, 0) {
        Ok(Tested::Proved(passes, n, next)) => answer(true, passes, n + 1, next, end),
        Ok(Tested::Refuted(passes, n, next)) => answer(false, passes, n + 1, next, end),
        Err(before) => Checked::Refused(Reason::SheetField, before + 1),
    }
}
