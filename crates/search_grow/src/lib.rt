// The letters that are tried behind a place, one behind the other, and their candidates. (Document 01, "Standings".) Fresh standings are kept in
// the order of their least prefix. Place 0 is the empty prefix, place i + 1 is standing i. The standing past the allowance is counted and
// not kept. What is required of the room is what the search call has tested (refusal 9), and of the relations what the reader lets through.
#![tactic(auto)]

ghost use Rattle.std.specs.Prelude.{ℕ, ◌+◌, ◌*◌, ◌-◌, ◌≤◌, ◌<◌, ◌≡◌, MatchOption, true, List, [], length, take};
ghost use Rattle.search_standings.specs.declared.Shape.{Shape};
ghost use Rattle.search_standings.specs.Systems.{width};
ghost use Rattle.search_records.specs.Rows.{record_at};
ghost use Rattle.search_store.specs.Store.{standing_in};
ghost use Rattle.layout.specs.Layout.{RING-WORDS, MOST-STANDINGS};
ghost use Rattle.search_grow.specs.Masks.{letters_left, relations_left, TriedAt, Sought};
ghost use Rattle.search_grow.specs.Kept.{state, Inside, words_at, Noted};

use layout::RING_WORDS;
use search_records::Record;
use search_standings::{Shape, Standing};
use side_tables::Table;

// The first relation from r on with which the atom is tried.
fn next_relation(masks: &[u64; 16], relations: usize, a: usize, r: usize) -> Option<usize>
    requires { (r ≤ relations) × (relations ≤ 16) × (a < 64) }
    ensures { MatchOption result (relations_left masks.now relations a r ≡ [])
        (λ i. (r ≤ i) × (i < relations) × (relations_left masks.now relations a r ≡ relations_left masks.now relations a i) × TriedAt masks.now a i) }
{
    for i in r..relations {
        if bits::member(masks[i], a) {
            return Some(i);
        }
    }
    None
}

// The atoms that are left behind a place, and the relation with which the lowest of them is tried next.
#[derive(Clone, Copy)]
pub struct Spot {
    pub rest: u64,
    pub relation: usize,
}

// The first letter that is tried, from the one on that has the lowest of these atoms and this relation.
pub fn seek(masks: &[u64; 16], relations: usize, rest: u64, relation: usize) -> Option<Spot>
    requires { (relation ≤ relations) × (relations ≤ 16) }
    ensures { MatchOption result (letters_left masks.now relations rest relation ≡ []) (λ s. Sought masks.now relations rest relation s) }
{
    let mut atoms = rest;
    let mut r = relation;
    while atoms != 0 {
        let a = u64::trailing_zeros(atoms) as usize;
        if let Some(tried) = next_relation(masks, relations, a, r) {
            return Some(Spot {
                rest: atoms,
                relation: tried,
            });
        }
        atoms = atoms & (atoms - 1);
        r = 0;
    }
    None
}

// The words of the standing one letter behind a place, of which a path claim has the record.
pub fn behind(
    k: Shape,
    left: &Table,
    right: &Table,
    from: Record,
    words: &[u64],
    place: usize,
    a: usize,
    r: usize,
    to: &mut Standing,
)
    requires { k.ring ≡ true → RING-WORDS * place ≤ length words.now }
    ensures { (rows : List (List ℕ)) → from ≡ record_at rows (place - 1)
        → take (width k.ring) to.new
        ≡ words_at k left.now right.now rows words.now place (record { atom = a; relation = r }) }
{
    if place == 0 {
        search_kinds::begin(k, left, right, a, r, to);
        return;
    }
    let mut s = [0u64; RING_WORDS];
    search_store::stand(k.ring, from, words, place - 1, &mut s);
    search_kinds::onward(k, left, right, &s, a, r, to);
}

// One candidate of a ring claim: where no left occurrence is possible or its standing is kept, nothing; else it is kept, or counted where
// the allowance is full.
pub fn note(
    cap: usize,
    words: &mut [u64],
    n: usize,
    s: &Standing,
    parent: u64,
    letter: u64,
) -> usize
    requires { (cap ≤ MOST-STANDINGS) × (RING-WORDS * cap ≤ length words.old) × (n ≤ cap + 1) }
    ensures inside { (rows : List (List ℕ)) → Inside true cap (state rows words.old n) (state rows words.new result) }
    ensures noted { (k : Shape) → k.ring ≡ true → (left right : List ℕ) (rows : List (List ℕ))
        → Noted k left right cap (state rows words.old n) (state rows words.new result) (standing_in true s.now) parent
        letter }
{
    if s[0] == 0 {
        return n;
    }
    if cap < n {
        return n;
    }
    if search_store::find(words, n, s).is_some() {
        return n;
    }
    if n < cap {
        search_store::append(words, n, s, parent, letter);
        return n + 1;
    }
    n + 1
}
