// The search on a decision: refusals 9, 10 and 11, the sheet, and the lent memory that is left behind. (Document 01, "Standings" and "Refusals
// with an example each".) After refusal 9 nothing is changed; after 10, 11 and an answer the needed working memory is zero.
#![tactic(auto)]

ghost use Rattle.std.specs.Prelude.{◌≤◌, ◌<◌, List, replicate};
ghost use Rattle.claims.specs.Sides.{Decision};
ghost use Rattle.claims.specs.Calls.{Asked, search_asked, searched, finish};
ghost use Rattle.search_records.specs.declared.Record.{Record};
ghost use Rattle.search_records.specs.Records.{blank};
ghost use Rattle.search_records.specs.Rows.{rows};
ghost use Rattle.search_grow.specs.Kept.{state, Ready};
ghost use Rattle.search_outcomes.specs.Outcomes.{lent_of, Gives};
ghost use Rattle.query.specs.Decided.{Decided};
ghost use Rattle.layout.specs.Layout.{MOST-STANDINGS};

use layout::MOST_STANDINGS;
use query::Facts;
use refusals::{Reason, Refusal};
use search_outcomes::Verdict;
use search_records::Record;
use side_tables::Table;

// The search, its sheet, and the needed memory zero.
fn run(
    f: Facts,
    left: &Table,
    right: &Table,
    allowance: usize,
    records: &mut [Record],
    words: &mut [u64],
    buffer: &mut [u8],
) -> Result<Verdict, Refusal>
    requires { Ready f.ring allowance (state (rows records.old) words.old 0) × (f.relations ≤ 16) }
    ensures { (D : Decision) → Decided f left.now right.now D
        → Gives (searched D allowance) (finish D allowance (lent_of records.old words.old buffer.old) (searched D allowance)) result
        (lent_of records.new words.new buffer.new) }
{
    let mut first = [0u64; 16];
    let mut later = [0u64; 16];
    search_shape::letters_tried(f, left, right, &mut first, &mut later);
    let k = search_shape::shape_of(f);
    let found = search_levels::levels(k, allowance, left, right, &first, &later, records, words);
    let r = search_outcomes::report(f.ring, records, words, found, buffer);
    let slots = search_shape::records_needed(f.ring, allowance);
    search_records::clear(records, slots);
    let cells = search_shape::words_needed(f.ring, allowance);
    search_shape::clear_words(words, cells);
    r
}

// The search on a decision, by its facts and the tables of its two sides: refusals 9, 10 and 11, or an answer with its sheet at the start of
// the buffer. Every decision of the reader has at most 16 relations, which is what is required.
pub fn decide(
    f: Facts,
    left: &Table,
    right: &Table,
    allowance: usize,
    records: &mut [Record],
    words: &mut [u64],
    buffer: &mut [u8],
) -> Result<Verdict, Refusal>
    requires { f.relations ≤ 16 }
    ensures { (a : Asked) → Decided f left.now right.now a.decided
        → Gives (searched a.decided allowance) (search_asked a allowance (lent_of records.old words.old buffer.old)) result
        (lent_of records.new words.new buffer.new) }
{
    if allowance == 0 {
        return Err(Refusal {
            why: Reason::BadAllowance,
            place: 0,
        });
    }
    if MOST_STANDINGS < allowance {
        return Err(Refusal {
            why: Reason::BadAllowance,
            place: 0,
        });
    }
    let slots = search_records::count(records);
    let room = search_shape::enough(f.ring, allowance, slots, words);
    if !room {
        return Err(Refusal {
            why: Reason::ShortMemory,
            place: 0,
        });
    }
    run(f, left, right, allowance, records, words, buffer)
}

// The search on a decision with records of its own, as if 4,096 records of zeros had been lent. Every decision of the reader has at most 16
// relations, which is what is required.
pub fn decide_alone(
    f: Facts,
    left: &Table,
    right: &Table,
    allowance: usize,
    words: &mut [u64],
    buffer: &mut [u8],
) -> Result<Verdict, Refusal>
    requires { f.relations ≤ 16 }
    ensures { (after : List Record) × ((a : Asked) → Decided f left.now right.now a.decided
        → Gives (searched a.decided allowance) (search_asked a allowance (lent_of (replicate MOST-STANDINGS blank) words.old buffer.old)) result
        (lent_of after words.new buffer.new)) }
{
    let mut records = [Record {
        p: 0,
        s: 0,
        parent: 0,
        letter: 0,
    }; MOST_STANDINGS];
    decide(f, left, right, allowance, &mut records, words, buffer)
}
