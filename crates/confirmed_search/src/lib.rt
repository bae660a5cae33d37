// The search, and the check of the sheet that it wrote: an outcome is handed on only where the check keeps it. (Document 01, "Sheet and graph
// bytes".) The two calls share only the reading of the query; `specs/ThirdDemand.antt` says what they owe together.
#![tactic(auto)]

ghost use Rattle.std.specs.Prelude.{◌≡◌};
ghost use Rattle.claims.specs.Calls.{check_call};
ghost use Rattle.search_outcomes.specs.Outcomes.{lent_of, SearchGives};
ghost use Rattle.confirmed_search.specs.inner.Kept.{kept_proved, kept_refuted, kept as kept_by};

use refusals::{Reason, Refusal};
use search_outcomes::Verdict;
use search_records::Record;
use sheet_checked::Checked;

// The refusal of a sheet that the check does not keep.
const FAILED: Refusal = Refusal {
    why: Reason::DoesNotPass,
    place: 0,
};

// Proved, if the check says so.
fn kept_proved(n: usize, bytes: usize, c: Checked) -> Result<Verdict, Refusal>
    ensures { result ≡ kept_proved n bytes c }
{
    match c {
        Checked::Proved => Ok(Verdict::Proved(n, bytes)),
        Checked::Refuted => Err(FAILED),
        Checked::Refused(why, place) => Err(FAILED),
    }
}

// Refuted, if the check says so.
fn kept_refuted(n: usize, bytes: usize, c: Checked) -> Result<Verdict, Refusal>
    ensures { result ≡ kept_refuted n bytes c }
{
    match c {
        Checked::Proved => Err(FAILED),
        Checked::Refuted => Ok(Verdict::Refuted(n, bytes)),
        Checked::Refused(why, place) => Err(FAILED),
    }
}

// The outcome, if the check says the same of the sheet.
fn kept(r: Result<Verdict, Refusal>, text: &[u8], sheet: &[u8]) -> Result<Verdict, Refusal>
    ensures { result ≡ kept_by r (check_call text.now sheet.now) }
{
    match r {
        Ok(verdict) => match verdict {
            Verdict::Proved(n, bytes) => kept_proved(n, bytes, sheet::check(text, sheet)),
            Verdict::Refuted(n, bytes) => kept_refuted(n, bytes, sheet::check(text, sheet)),
        },
        Err(e) => Err(e),
    }
}

// The search, whose every answer is handed on only after the check of its sheet has said the same. That the outcome is nevertheless that of the
// search, for every text, allowance and lent memory, is the end of the third demand: the check never fails a sheet that the search wrote.
pub fn search_and_check(
    text: &[u8],
    allowance: usize,
    records: &mut [Record],
    words: &mut [u64],
    buffer: &mut [u8],
) -> Result<Verdict, Refusal>
    ensures { SearchGives text.now allowance (lent_of records.old words.old buffer.old) result
        (lent_of records.new words.new buffer.new) }
{
    let r = search::search(text, allowance, records, words, buffer);
    let sheet = outcome_lines::sheet_of(r, buffer);
    kept(r, text, sheet)
}
