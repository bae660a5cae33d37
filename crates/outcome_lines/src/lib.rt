// What is shown of an outcome: its line, as bytes in lent memory, and its sheet, as the part of the buffer that it is. (Document 01, "The desk's
// cases" and "Sheet and graph bytes".) The word of a refuted claim is read off the sheet.
#![tactic(auto)]

ghost use Rattle.std.specs.Prelude.{◌+◌, ◌*◌, ◌≡◌, take, drop};
ghost use Rattle.layout.specs.Layout.{WORD-AT};
ghost use Rattle.print_line.specs.Puts.{Puts};
ghost use Rattle.outcome_lines.specs.Shown.{outcome_line};
ghost use Rattle.outcome_lines.specs.Sheets.{sheet_bytes, sheet_of};

use layout::WORD_AT;
use memory::least;
use refusals::Refusal;
use search_outcomes::Verdict;

// The line of an answer or a refusal; a refuting word of n relations stands in the sheet, behind the verdict and its own header.
pub fn outcome_line(r: Result<Verdict, Refusal>, sheet: &[u8], out: &mut [u8]) -> usize
    ensures { Puts out.old 0 (outcome_line r sheet.now) result out.new }
{
    match r {
        Ok(verdict) => match verdict {
            Verdict::Proved(count, _) => print_line::proved_line(out, count),
            Verdict::Refuted(n, _) => print_line::refuted_line(out, word_in(sheet, n)),
        },
        Err(e) => print_line::refusal_line(out, e.why, e.place),
    }
}

// The word of n relations in a refuted sheet.
fn word_in(sheet: &[u8], n: usize) -> &[u8]
    ensures { result.now ≡ take (2 * n + 1) (drop WORD-AT sheet.now) }
{
    if WORD_AT <= sheet.len() {
        let rest = &sheet[WORD_AT..];
        let most = rest.len();
        if n < most {
            if n < most - n {
                return &rest[..2 * n + 1];
            }
        }
        return rest;
    }
    &sheet[..0]
}

// How many bytes the sheet of an outcome has; a refusal has none.
fn sheet_bytes(r: Result<Verdict, Refusal>) -> usize
    ensures { result ≡ sheet_bytes r }
{
    match r {
        Ok(verdict) => match verdict {
            Verdict::Proved(_, bytes) => bytes,
            Verdict::Refuted(_, bytes) => bytes,
        },
        Err(_) => 0,
    }
}

// The sheet that an answer left at the start of the buffer. `own_sheets` shows that after an answer of the search it is the sheet that the
// search wrote.
pub fn sheet_of(r: Result<Verdict, Refusal>, buffer: &[u8]) -> &[u8]
    ensures { result.now ≡ sheet_of r buffer.now }
{
    let n = least(sheet_bytes(r), buffer.len());
    &buffer[..n]
}
