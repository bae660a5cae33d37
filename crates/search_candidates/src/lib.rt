// One standing of a level, and one letter behind a place: whether the standing completes a refuting word, and the candidate that the letter
// leads to. (Document 01, "Standings".) A candidate of a ring claim is noted, one of a path claim is offered.
#![tactic(auto)]

ghost use Rattle.std.specs.Prelude.{ℕ, ◌+◌, ◌*◌, ◌-◌, ◌≤◌, ◌<◌, ◌≡◌, true, List, length};
ghost use Rattle.search_standings.specs.declared.Shape.{Shape};
ghost use Rattle.search_records.specs.Rows.{record_at};
ghost use Rattle.search_course.specs.Turns.{turn_weight, Tries, Tryable, masks_now, At, Stepped};
ghost use Rattle.layout.specs.Layout.{RING-WORDS};

use layout::RING_WORDS;
use search_course::{Course, GROWS, Move, REFUTED, quiet};
use search_records::Record;
use search_standings::Shape;
use side_tables::Table;

// One standing of the level: where it completes a refuting word, that is the answer; else on to the next one, or to the letters behind the
// standings of the level.
pub fn complete(
    k: Shape,
    left: &Table,
    right: &Table,
    from: Record,
    words: &[u64],
    t: Course,
) -> Course
    requires { (k.ring ≡ true → RING-WORDS * (t.at + 1) ≤ length words.now) × (t.at ≤ 4097) × (t.place ≤ 4097) × (t.lo ≤ 4097) }
    ensures quiet { result.count ≡ t.count }
    ensures on { (first later : List ℕ) (cap : ℕ) (r : List (List ℕ)) → from ≡ record_at r t.at → t.phase ≡ 1
        → At k left.now right.now first later cap t r words.now
        → At k left.now right.now first later cap result r words.now × (turn_weight result < turn_weight t) }
{
    let mut s = [0u64; RING_WORDS];
    search_store::stand(k.ring, from, words, t.at, &mut s);
    let a = search_kinds::first_final(k, left, right, &s);
    let mut u = t;
    if a < 64 {
        u.phase = REFUTED;
        u.last = a;
        return u;
    }
    if t.place == t.hi {
        u.phase = GROWS;
        u.at = t.lo;
        u.place = t.lo + 1;
        u.rest = k.live;
        u.relation = 0;
        return u;
    }
    u.at = t.at + 1;
    u.place = t.place + 1;
    u
}

// One letter behind the place, the next one that is tried: its candidate is noted where the claim is one of rings, and offered where it is
// one of paths. Where no letter is left, on to the next place.
pub fn try_letter(
    k: Shape,
    cap: usize,
    left: &Table,
    right: &Table,
    masks: &[u64; 16],
    from: Record,
    words: &mut [u64],
    t: Course,
) -> Move
    requires { Tryable k.ring k.relations cap (length words.old) t }
    ensures { (first later : List ℕ) (r : List (List ℕ)) → masks.now ≡ masks_now first later t → from ≡ record_at r (t.place - 1) → Tries t
        → At k left.now right.now first later cap t r words.old
        → Stepped k left.now right.now first later cap t result r words.old words.new
        × (turn_weight result.course < turn_weight t) }
{
    let Some(spot) = search_grow::seek(masks, k.relations, t.rest, t.relation) else {
        return quiet(search_course::next_place(k.live, cap, t));
    };
    let a = u64::trailing_zeros(spot.rest) as usize;
    let r = spot.relation;
    let place = t.place;
    let mut s = [0u64; RING_WORDS];
    search_grow::behind(k, left, right, from, words, place, a, r, &mut s);
    let letter = (16 * a + r) as u64;
    let mut c = t;
    c.rest = spot.rest;
    c.relation = r + 1;
    if k.ring {
        c.count = search_grow::note(cap, words, t.count, &s, place as u64, letter);
        return quiet(c);
    }
    if s[0] == 0 {
        return quiet(c);
    }
    if cap < t.count {
        return quiet(c);
    }
    search_course::offering(c, s[0], s[1], letter)
}
