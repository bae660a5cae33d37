// The outcome of a search, and the sheet of what it found, from the memory that it leaves. (Document 01, "Sheet and graph bytes" and "Refusals
// with an example each".) One record of the memory is read a turn; refusals 10 and 11 are told here, an answer once its sheet is written.
#![tactic(auto)]

ghost use Rattle.std.specs.Prelude.{ℕ, ◌<◌, ◌≡◌, Bool, false, true, List};
ghost use Rattle.search_records.specs.Rows.{rows, record_at};
ghost use Rattle.search_outcomes.specs.inner.Found.{found_in, Reports, Reportable};
ghost use Rattle.search_outcomes.specs.inner.Stands.{Stands, turns};

use refusals::{Reason, Refusal};
use search_course::Finding;
use search_records::Record;
use search_sheet::LONGEST;
use search_writing::Writing;

// Proved with the count of standings, or refuted with the length of the word, and each with the bytes of its sheet, which is at the start of the
// buffer. The outcome of a search is a verdict or a refusal.
#[derive(Clone, Copy)]
pub enum Verdict {
    Proved(usize, usize),
    Refuted(usize, usize),
}

// The outcome of what was found, once the sheet is written or the buffer was too short for it.
fn tell(found: Finding, x: Writing) -> Result<Verdict, Refusal>
    ensures { (ring : Bool) (r : List (List ℕ)) (w b₀ word b : List ℕ) → x.going ≡ false → Stands ring r w b₀ found x word b
        → Reports (found_in ring r w found) b₀ result b }
{
    if x.short {
        return Err(Refusal {
            why: Reason::ShortBuffer,
            place: 0,
        });
    }
    match found {
        Finding::Proved(n) => Ok(Verdict::Proved(n, x.to)),
        Finding::Refuted(_, _) => Ok(Verdict::Refuted(x.count, x.to)),
        Finding::Spent => Err(Refusal {
            why: Reason::SpentAllowance,
            place: 0,
        }),
    }
}

// The sheet of what was found begins.
fn begin(ring: bool, found: Finding, word: &mut [u8; LONGEST], buffer: &mut [u8]) -> Writing
    requires { (r : List (List ℕ)) × (w : List ℕ) × Reportable ring r w found }
    ensures { (r : List (List ℕ)) (w : List ℕ) → Reportable ring r w found
        → Stands ring r w buffer.old found result word.new buffer.new }
{
    match found {
        Finding::Proved(n) => search_writing::begin_fields(ring, n, buffer),
        Finding::Refuted(place, last) => search_writing::begin_word(place, last, word, buffer),
        Finding::Spent => search_writing::ended(false, 0, 0),
    }
}

// One standing's part of the sheet, by its record or from the words.
fn put(
    ring: bool,
    from: Record,
    words: &[u64],
    found: Finding,
    x: Writing,
    word: &mut [u8; LONGEST],
    buffer: &mut [u8],
) -> Writing
    requires { (r : List (List ℕ)) × (b₀ : List ℕ) × (x.going ≡ true) × Stands ring r words.now b₀ found x word.old buffer.old }
    ensures { (r : List (List ℕ)) (b₀ : List ℕ) → from ≡ record_at r x.at → x.going ≡ true
        → Stands ring r words.now b₀ found x word.old buffer.old
        → Stands ring r words.now b₀ found result word.new buffer.new × (turns found result < turns found x) }
{
    match found {
        Finding::Proved(n) => search_writing::next_field(ring, from, words, n, x.at, x.to, buffer),
        Finding::Refuted(_, _) => search_writing::next_letter(
            ring, from, words, x.at, x.to, word, buffer,
        ),
        Finding::Spent => x,
    }
}

// The outcome of what was found, and its sheet: one record of the memory a turn. A word is gathered in an array of its own.
pub fn report(
    ring: bool,
    records: &[Record],
    words: &[u64],
    found: Finding,
    buffer: &mut [u8],
) -> Result<Verdict, Refusal>
    requires { Reportable ring (rows records.now) words.now found }
    ensures { Reports (found_in ring (rows records.now) words.now found) buffer.old result buffer.new }
{
    let mut word = [0u8; LONGEST];
    let mut x = begin(ring, found, &mut word, buffer);
    while x.going {
        let from = search_records::load(records, x.at);
        x = put(ring, from, words, found, x, &mut word, buffer);
    }
    tell(found, x)
}
