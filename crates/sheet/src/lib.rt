// The sheet check: a query and a sheet from anybody give what the passing sheet says, or a refusal. (Document 01, "Sheet and graph bytes" and
// "Refusals with an example each".) The query is read first, refusals 1 to 8; then comes 13 at the first wrong field, and 14 for a
// well-formed sheet that does not pass. It uses nothing of the search.
#![tactic(auto)]

ghost use Rattle.std.specs.Prelude.{◌≡◌};
ghost use Rattle.claims.specs.Calls.{check_call};
ghost use Rattle.sheet_checked.specs.Checks.{Says};
ghost use Rattle.sheet.specs.Evidence.{HoldsInEveryGraph, DrawnGraphBreaks};
ghost use Rattle.sheet_checked.specs.declared.Checked.TheVariants.{Proved, Refuted};

use sheet_checked::Checked;
use side_tables::TABLE;

// Checks a sheet against the query that the text is. Whoever has a sheet that passes as proved has a claim that holds in every graph; one that
// passes as refuted has a graph that breaks it.
pub fn check(text: &[u8], sheet: &[u8]) -> Checked
    ensures says { Says (check_call text.now sheet.now) result }
    ensures proved { result ≡ Proved → HoldsInEveryGraph text.now }
    ensures refuted { result ≡ Refuted → DrawnGraphBreaks text.now sheet.now }
{
    let mut left = [0u64; TABLE];
    let mut right = [0u64; TABLE];
    let asked = query::read_sides(text, &mut left, &mut right);
    match asked {
        Err(e) => Checked::Refused(e.why, e.place),
        Ok(f) => sheet_checked::check_decided(f, &left, &right, sheet),
    }
}
