// The fields of a sheet: the verdict's; for a proved claim that of a standing; for a refuted one that of the word, and the bytes of one of its
// letters. (Document 01, "Sheet and graph bytes".) A standing of a path claim comes as its record, by value, and one of a ring claim from the
// words. Each field is put at the start of the part of the buffer that is not written yet, and its writer returns how many bytes it put
// there; the buffer around it is left as it is. What is required of the room in it is what the search call has tested (refusal 11), and of the
// memory what the search leaves there.
#![tactic(auto)]

ghost use Rattle.std.specs.Prelude.{ℕ, ◌+◌, ◌*◌, ◌≤◌, ◌≡◌, true, List, length};
ghost use Rattle.claims.specs.Fields.{big_endian, field};
ghost use Rattle.search_records.specs.Rows.{record_at};
ghost use Rattle.search_store.specs.Store.{standing_at};
ghost use Rattle.search_contents.specs.Written.{written, over};
ghost use Rattle.search_contents.specs.FieldWords.{field_words, field_length};
ghost use Rattle.layout.specs.Layout.{RING-WORDS, HEADER, VERDICT, MOST-STANDINGS};
ghost use Rattle.search_sheet.specs.SheetWords.{letter_bytes};

use layout::{MOST_STANDINGS, PATH_FIELD, RING_FIELD, RING_WORDS, VERDICT};
use search_fields::{put_big_endian, put_bytes, put_header, put_standing};
use search_records::Record;

// How many bytes the sheet of a proved claim with n standings has.
pub fn proved_length(ring: bool, n: usize) -> usize
    requires { n ≤ MOST-STANDINGS }
    ensures { result ≡ VERDICT + field_length ring * n }
{
    if ring {
        return VERDICT + RING_FIELD * n;
    }
    VERDICT + PATH_FIELD * n
}

// How many bytes the numbers of the longest word have: 4,096 letters of two, and the last atom.
pub const LONGEST: usize = 2 * MOST_STANDINGS + 1;

// The verdict's field: 1 for proved, 2 for refuted.
pub fn put_verdict(out: &mut [u8], v: u64) -> usize
    requires { VERDICT ≤ length out.old }
    ensures { (result ≡ VERDICT) × (out.new ≡ written (field 1 (big_endian 1 v)) out.old) }
{
    let contents = put_header(out, 1, 1);
    put_big_endian(out, contents, 1, v)
}

// The field of standing i.
pub fn put_kept(ring: bool, from: Record, words: &[u64], i: usize, out: &mut [u8]) -> usize
    requires i_in_bounds { ring ≡ true → RING-WORDS * (i + 1) ≤ length words.now }
    requires ring_in_bounds { field_length ring ≤ length out.old }
    ensures { (result ≡ field_length ring) × ((r : List (List ℕ)) → from ≡ record_at r i
        → out.new ≡ written (field_words ring (standing_at ring r words.now i)) out.old) }
{
    let mut s = [0u64; RING_WORDS];
    search_store::stand(ring, from, words, i, &mut s);
    put_standing(ring, &s, out)
}

// An atom and the relation behind it, from place `at` on.
pub fn put_letter(out: &mut [u8], at: usize, l: u64)
    requires { at + 2 ≤ length out.old }
    ensures { out.new ≡ over at (letter_bytes l) out.old }
{
    let second = put_big_endian(out, at, 1, l / 16);
    put_big_endian(out, second, 1, l % 16);
}

// The word's field, with the numbers of the word for its contents.
pub fn put_word(out: &mut [u8], contents: &[u8]) -> usize
    requires { HEADER + length contents.now ≤ length out.old }
    ensures { (result ≡ HEADER + length contents.now) × (out.new ≡ written (field 2 contents.now) out.old) }
{
    let at = put_header(out, 2, contents.len() as u64);
    put_bytes(out, at, contents)
}
