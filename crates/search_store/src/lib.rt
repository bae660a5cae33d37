// The memory of standings: a standing read, compared and put at its place, with its parent and its letter. (Document 01, "Standings".) Two
// memories are lent, and only that of the claim's kind is used: a record for each standing of a path claim, by value here, and RING_WORDS
// words for each one of a ring claim. A parent is a place: 0 is the empty prefix, i + 1 is standing i. A letter is 16 * atom + relation. What is
// required of the room is what the search call has tested (refusal 9).
#![tactic(auto)]

ghost use Rattle.std.specs.Prelude.{ℕ, ◌+◌, ◌*◌, ◌≤◌, ◌≡◌, true, false, List, [], ◌∷◌, length, take};
ghost use Rattle.search_standings.specs.Systems.{width};
ghost use Rattle.search_records.specs.Rows.{record_at};
ghost use Rattle.layout.specs.Layout.{RING-WORDS};
ghost use Rattle.search_standings.specs.Layout.{TOLD, PATH-TOLD};
ghost use Rattle.search_store.specs.Store.{standing_at, parent_at, letter_at, copied, standing_in, Place, Agree, words_after};

use layout::RING_WORDS;
use search_records::Record;
use search_standings::{LETTER, PARENT, Standing, TOLD};

// The words that tell a ring standing, from one memory to another.
fn copy(to: &mut [u64], at: usize, from: &[u64], base: usize)
    requires { (at + TOLD ≤ length to.old) × (base + TOLD ≤ length from.now) }
    ensures { to.new ≡ copied to.old at from.now base 0 }
{
    to[at..at + TOLD].copy_from_slice(&from[base..base + TOLD]);
}

// Two words, at the start.
fn pair(to: &mut [u64], a: u64, b: u64)
    requires { PATH-TOLD ≤ length to.old }
    ensures { take PATH-TOLD to.new ≡ a ∷ b ∷ [] }
{
    to[0] = a;
    to[1] = b;
}

// Standing i, which of a path claim is in its record.
pub fn stand(ring: bool, from: Record, words: &[u64], i: usize, to: &mut Standing)
    requires { ring ≡ true → RING-WORDS * (i + 1) ≤ length words.now }
    ensures { (r : List (List ℕ)) → from ≡ record_at r i → take (width ring) to.new ≡ standing_at ring r words.now i }
{
    if ring {
        copy(to, 0, words, RING_WORDS * i);
        return;
    }
    pair(to, from.p, from.s);
}

// The parent of standing i.
pub fn parent(ring: bool, from: Record, words: &[u64], i: usize) -> u64
    requires { ring ≡ true → RING-WORDS * (i + 1) ≤ length words.now }
    ensures { (r : List (List ℕ)) → from ≡ record_at r i → result ≡ parent_at ring r words.now i }
{
    if ring {
        return words[RING_WORDS * i + PARENT];
    }
    from.parent
}

// The letter of standing i.
pub fn letter(ring: bool, from: Record, words: &[u64], i: usize) -> u64
    requires { ring ≡ true → RING-WORDS * (i + 1) ≤ length words.now }
    ensures { (r : List (List ℕ)) → from ≡ record_at r i → result ≡ letter_at ring r words.now i }
{
    if ring {
        return words[RING_WORDS * i + LETTER];
    }
    from.letter
}

// Whether the words from base on are those of this ring standing.
fn equal_at(words: &[u64], base: usize, s: &Standing) -> bool
    requires { base + TOLD ≤ length words.now }
    ensures alike { result ≡ true → Agree words.now base s.now }
    ensures unlike { result ≡ false → Agree words.now base s.now → ⊥ }
{
    for j in 0..TOLD {
        if words[base + j] != s[j] {
            return false;
        }
    }
    true
}

// A place below n at which this ring standing is kept. From the last one down: an equal standing is most often one of the last.
pub fn find(words: &[u64], n: usize, s: &Standing) -> Option<usize>
    requires { RING-WORDS * n ≤ length words.now }
    ensures { Place (standing_at true [] words.now) n (standing_in true s.now) result }
{
    let mut i = n;
    while i > 0 {
        i -= 1;
        if equal_at(words, RING_WORDS * i, s) {
            return Some(i);
        }
    }
    None
}

// A ring standing put at place n, with its parent and its letter.
pub fn append(words: &mut [u64], n: usize, s: &Standing, parent: u64, letter: u64)
    requires { RING-WORDS * (n + 1) ≤ length words.old }
    ensures { words.new ≡ words_after true words.old n s.now parent letter }
{
    let base = RING_WORDS * n;
    copy(words, base, s, 0);
    words[base + PARENT] = parent;
    words[base + LETTER] = letter;
}
