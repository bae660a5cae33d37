// A sheet written turn by turn, with one standing of the memory a turn, a path claim's as its record. (Document 01, "Sheet and graph bytes".)
// The length of the sheet is tested before its first byte is written (refusal 11). Of a proof each turn puts a standing's field; the place
// of the next one is the sum of what the writers of those before have returned. The letters of a word come from the last to the first, since
// a standing has its parent: they are gathered before each other at the end of an array, and then the word's field is written forward. What
// is required of the sheet is how the turn before has left it, and of the standings what the allowance lets through.
#![tactic(auto)]

ghost use Rattle.std.specs.Prelude.{ℕ, ◌+◌, ◌*◌, ◌-◌, ◌≤◌, ◌<◌, ◌≡◌, Bool, true, List, length};
ghost use Rattle.search_records.specs.Rows.{record_at};
ghost use Rattle.search_store.specs.Store.{Room};
ghost use Rattle.search_contents.specs.FieldWords.{field_length};
ghost use Rattle.search_sheet.specs.SheetWords.{Falling};
ghost use Rattle.layout.specs.Layout.{RING-WORDS, MOST-STANDINGS};
ghost use Rattle.search_writing.specs.Left.{looks_at, at_end, WordEnded, FieldsLeft, LettersLeft, ProofStands, WordStands, proof_turns, word_turns};

use layout::WORD_AT;
use search_records::Record;
use search_sheet::{proved_length, put_kept, put_letter, put_verdict, put_word};
use search_store::{letter, parent};

// Whether standing `at` is to be looked at, or the end is reached; whether the buffer is too short; the place up to which a proof is written
// in the buffer, or from which on a word is gathered in the array, and at the end the length of the sheet; and at the end of a word how many
// relations it has.
#[derive(Clone, Copy)]
pub struct Writing {
    pub going: bool,
    pub short: bool,
    pub at: usize,
    pub to: usize,
    pub count: usize,
}

// Standing `at` is looked at next, with what is done up to a place, or from it on.
fn looking(at: usize, to: usize) -> Writing
    ensures { result ≡ looks_at at to }
{
    Writing {
        going: true,
        short: false,
        at,
        to,
        count: 0,
    }
}

// No standing is left to be looked at, and the sheet has so many bytes, where there is one.
pub fn ended(short: bool, count: usize, to: usize) -> Writing
    ensures { result ≡ at_end short count to }
{
    Writing {
        going: false,
        short,
        at: 0,
        to,
        count,
    }
}

// The sheet of a proved claim with n standings: the verdict, where the buffer is long enough for the sheet.
pub fn begin_fields(ring: bool, n: usize, buffer: &mut [u8]) -> Writing
    requires { n ≤ MOST-STANDINGS }
    ensures { (r : List (List ℕ)) (w : List ℕ) → Room ring r w n → ProofStands ring r w buffer.old n result buffer.new }
{
    let length = proved_length(ring, n);
    if buffer.len() < length {
        return ended(true, 0, 0);
    }
    let to = put_verdict(buffer, 1);
    if 0 < n {
        return looking(0, to);
    }
    ended(false, 0, length)
}

// The field of standing i of n, from place `to` of the buffer on.
pub fn next_field(
    ring: bool,
    from: Record,
    words: &[u64],
    n: usize,
    i: usize,
    to: usize,
    buffer: &mut [u8],
) -> Writing
    requires { (ring ≡ true → RING-WORDS * n ≤ length words.now) × (i < n) × (to + field_length ring ≤ length buffer.old) }
    ensures { (r : List (List ℕ)) (b₀ : List ℕ) → from ≡ record_at r i → FieldsLeft ring r words.now b₀ n i to buffer.old
        → ProofStands ring r words.now b₀ n result buffer.new × (proof_turns n result < n - i) }
{
    let more = put_kept(ring, from, words, i, &mut buffer[to..]);
    if i + 1 < n {
        return looking(i + 1, to + more);
    }
    ended(false, 0, to + more)
}

// The sheet of a word with these numbers, where the buffer is long enough for it.
fn end_word(contents: &[u8], buffer: &mut [u8]) -> Writing
    ensures { WordEnded contents.now buffer.old result buffer.new }
{
    let relations = contents.len() / 2;
    let length = WORD_AT + contents.len();
    if buffer.len() < length {
        return ended(true, relations, 0);
    }
    let at = put_verdict(buffer, 2);
    put_word(&mut buffer[at..], contents);
    ended(false, relations, length)
}

// The word of a place and a last atom: the last atom, at the end of the array.
pub fn begin_word(place: usize, last: usize, word: &mut [u8], buffer: &mut [u8]) -> Writing
    requires { 2 * place < length word.old }
    ensures { (ring : Bool) (r : List (List ℕ)) (w : List ℕ) → Room ring r w place → Falling ring r w place
        → WordStands ring r w buffer.old place last result word.new buffer.new }
{
    let from = word.len() - 1;
    search_fields::put_big_endian(word, from, 1, last as u64);
    if place == 0 {
        return end_word(&word[from..], buffer);
    }
    looking(place - 1, from)
}

// The letter of standing i, before what is gathered from place `to` of the array on.
pub fn next_letter(
    ring: bool,
    from: Record,
    words: &[u64],
    i: usize,
    to: usize,
    word: &mut [u8],
    buffer: &mut [u8],
) -> Writing
    requires { (ring ≡ true → RING-WORDS * (i + 1) ≤ length words.now) × (2 ≤ to) × (to ≤ length word.old) }
    ensures { (r : List (List ℕ)) (b₀ : List ℕ) (place last : ℕ) → from ≡ record_at r i
        → LettersLeft ring r words.now b₀ place last i to word.old buffer.old
        → WordStands ring r words.now b₀ place last result word.new buffer.new × (word_turns result < i + 1) }
{
    let at = to - 2;
    put_letter(word, at, letter(ring, from, words, i));
    let before = parent(ring, from, words, i) as usize;
    if before == 0 {
        return end_word(&word[at..], buffer);
    }
    looking(before - 1, at)
}
