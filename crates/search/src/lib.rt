// The search call: a query, an allowance and lent memory give an answer with its sheet, or a refusal. (Document 01, "Standings", "Sheet and
// graph bytes" and "Refusals with an example each".) The query is read first, refusals 1 to 8; then come 9, 10 and 11. For every input the
// outcome is said, and every record, word and byte that was lent.
#![tactic(auto)]

ghost use Rattle.std.specs.Prelude.{List, replicate};
ghost use Rattle.search_records.specs.declared.Record.{Record};
ghost use Rattle.search_records.specs.Records.{blank};
ghost use Rattle.search_outcomes.specs.Outcomes.{lent_of, SearchGives};
ghost use Rattle.search_outcomes.specs.ByWords.{SearchedByWords};
ghost use Rattle.layout.specs.Layout.{MOST-STANDINGS};

use refusals::Refusal;
use search_outcomes::Verdict;
use search_records::Record;
use side_tables::TABLE;

// Searches for the verdict of the query that the text is, within an allowance of standings. A path claim needs a record for each standing
// of the allowance, a ring claim RING_WORDS words; the other kind of memory is not looked at. After an answer the sheet stands at the start of the
// buffer. The outcome is the one that the words of the claim fix.
pub fn search(
    text: &[u8],
    allowance: usize,
    records: &mut [Record],
    words: &mut [u64],
    buffer: &mut [u8],
) -> Result<Verdict, Refusal>
    ensures gives { SearchGives text.now allowance (lent_of records.old words.old buffer.old) result
        (lent_of records.new words.new buffer.new) }
    ensures by_words { SearchedByWords text.now allowance (lent_of records.old words.old buffer.old)
        (lent_of records.new words.new buffer.new) result }
{
    let mut codes = [0u64; 4096];
    let mut left = [0u64; TABLE];
    let mut right = [0u64; TABLE];
    // a match, and no `?`, so that a wrong program can change one value of what is refused
    match query::read(text, &mut codes, &mut left, &mut right) {
        Ok(f) => search_run::decide(f, &left, &right, allowance, records, words, buffer),
        Err(e) => Err(e),
    }
}

// The search with records of its own, for a caller that has none: as if 4,096 records of zeros had been lent. The query is read before there are
// records.
pub fn search_alone(
    text: &[u8],
    allowance: usize,
    words: &mut [u64],
    buffer: &mut [u8],
) -> Result<Verdict, Refusal>
    ensures { (after : List Record) × SearchGives text.now allowance (lent_of (replicate MOST-STANDINGS blank) words.old buffer.old) result
        (lent_of after words.new buffer.new) }
{
    let mut left = [0u64; TABLE];
    let mut right = [0u64; TABLE];
    let f = query::read_sides(text, &mut left, &mut right)?;
    search_run::decide_alone(f, &left, &right, allowance, words, buffer)
}
