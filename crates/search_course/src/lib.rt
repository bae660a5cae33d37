// Where the search stands between two turns, and how it goes on: the first turn, from place to place, from level to level, what a step offers
// and what becomes of it, and the answer. (Document 01, "Standings".) Fresh standings are kept in the order of their least prefix, so the
// memory is the queue: a level is a range of standings. Place 0 is the empty prefix, place i + 1 is standing i. The standing past the
// allowance is counted and not kept.
#![tactic(auto)]

ghost use Rattle.std.specs.Prelude.{ℕ, ◌+◌, ◌-◌, ◌≤◌, ◌<◌, ◌≡◌, List, []};
ghost use Rattle.search_standings.specs.declared.Shape.{Shape};
ghost use Rattle.search_grow.specs.Masks.{letters_left};
ghost use Rattle.search_grow.specs.Kept.{state, Ready};
ghost use Rattle.search_course.specs.Turns.{finding_of, turn_weight, level_weight, Tries, quietly, offers, puts, settled, record_of, masks_now, RunsOn, At};

use search_records::Record;
use search_standings::Shape;
use side_tables::Table;

// Phases of the search: the letters behind the empty prefix; the standings of a level, whether they complete a word; the letters behind
// the standings of a level; and the three answers.
pub const BEGINS: u64 = 0;

pub const COMPLETES: u64 = 1;

pub const GROWS: u64 = 2;

pub const PROVED: u64 = 3;

pub const REFUTED: u64 = 4;

const SPENT: u64 = 5;

// Where the search stands between two turns: its phase; the first standing of the level and the one past its last; the standing that is
// looked at, and its place; the atoms that are left behind the place, and the relation with which the lowest of them is tried next; how many
// standings were counted; the last atom of a refuting word.
#[derive(Clone, Copy)]
pub struct Course {
    pub phase: u64,
    pub lo: usize,
    pub hi: usize,
    pub at: usize,
    pub place: usize,
    pub rest: u64,
    pub relation: usize,
    pub count: usize,
    pub last: usize,
}

// A candidate that is offered to the memory of a path claim: among how many records it is looked for, behind which it is put where it is new; and
// its P, its S and its letter.
#[derive(Clone, Copy)]
pub struct Offer {
    pub seek: usize,
    pub p: u64,
    pub s: u64,
    pub letter: u64,
}

// A step: where the search stands behind it, and the candidate that it offers.
#[derive(Clone, Copy)]
pub struct Move {
    pub course: Course,
    pub offer: Option<Offer>,
}

// Proved, with the count of standings; refuted, with the place of the word's prefix and its last atom; or the allowance spent.
#[derive(Clone, Copy)]
pub enum Finding {
    Proved(usize),
    Refuted(usize, usize),
    Spent,
}

// The answer of the last turn.
pub fn finding_of(t: Course) -> Finding
    ensures { result ≡ finding_of t }
{
    if t.phase == PROVED {
        return Finding::Proved(t.count);
    }
    if t.phase == REFUTED {
        return Finding::Refuted(t.place, t.last);
    }
    Finding::Spent
}

// The level that begins where the last one ends. More standings than the allowance spend it; a level without standings proves.
fn next_level(cap: usize, t: Course) -> Course
    requires { t.hi ≤ 4097 }
    ensures quiet { result.count ≡ t.count }
    ensures falls { turn_weight result ≤ level_weight t.hi }
    ensures on { (k : Shape) (left right first later : List ℕ) (r : List (List ℕ)) (w : List ℕ) → Ready k.ring cap (state r w t.count)
        → t.hi ≤ t.count → RunsOn k left right first later cap (state r w t.count) t.hi → At k left right first later cap result r w }
{
    let mut u = t;
    if t.count > cap {
        u.phase = SPENT;
        return u;
    }
    if t.hi == t.count {
        u.phase = PROVED;
        return u;
    }
    u.phase = COMPLETES;
    u.lo = t.hi;
    u.hi = t.count;
    u.at = t.hi;
    u.place = t.hi + 1;
    u
}

// On from a place behind which no letter is left: to the next standing of the level, or to the next level.
// What is required keeps the place behind from growing too large: no more than one standing above the largest allowance is counted.
pub fn next_place(live: u64, cap: usize, t: Course) -> Course
    requires { (t.hi ≤ 4097) × (t.place ≤ 4097) }
    ensures quiet { result.count ≡ t.count }
    ensures on { (k : Shape) (left right first later : List ℕ) (r : List (List ℕ)) (w : List ℕ) → live ≡ k.live → Tries t
        → letters_left (masks_now first later t) k.relations t.rest t.relation ≡ [] → At k left right first later cap t r w
        → At k left right first later cap result r w × (turn_weight result < turn_weight t) }
{
    if t.place == t.hi {
        return next_level(cap, t);
    }
    let mut u = t;
    u.at = t.place;
    u.place = t.place + 1;
    u.rest = live;
    u.relation = 0;
    u
}

// A step that offers nothing.
pub fn quiet(t: Course) -> Move
    ensures { result ≡ quietly t }
{
    Move {
        course: t,
        offer: None,
    }
}

// A step that offers a candidate, which is looked for among all records.
pub fn offering(t: Course, p: u64, s: u64, letter: u64) -> Move
    ensures { result ≡ offers t t.count p s letter }
{
    let offer = Offer {
        seek: t.count,
        p,
        s,
        letter,
    };
    Move {
        course: t,
        offer: Some(offer),
    }
}

// Whether a candidate is put, by where it was found: if it is new and within the allowance.
pub fn puts(cap: usize, t: Course, found: Option<usize>) -> bool
    ensures { result ≡ puts cap found t }
{
    match found {
        Some(_) => false,
        None => t.count < cap,
    }
}

// Where the search stands once a candidate is decided, by where it was found: a new one is counted. What is required keeps the count from
// growing too large, as in `next_place`.
pub fn settle(t: Course, found: Option<usize>) -> Course
    requires { t.count ≤ 4097 }
    ensures { result ≡ settled found t }
{
    if found.is_some() {
        return t;
    }
    let mut u = t;
    u.count = t.count + 1;
    u
}

// The record of the candidate.
pub fn record_of(t: Course, o: Offer) -> Record
    ensures { result ≡ record_of t o }
{
    Record {
        p: o.p,
        s: o.s,
        parent: t.place as u64,
        letter: o.letter,
    }
}

// The first turn: a single atom that refutes, or the letters behind the empty prefix.
pub fn start(live: u64, left: &Table, right: &Table) -> Course
    ensures { (k : Shape) (first later : List ℕ) (cap : ℕ) (r : List (List ℕ)) (w : List ℕ) → live ≡ k.live → Ready k.ring cap (state r w 0)
        → (result.count ≡ 0) × At k left.now right.now first later cap result r w }
{
    let a = search_path::first_alone(left, right, live);
    let mut t = Course {
        phase: BEGINS,
        lo: 0,
        hi: 0,
        at: 0,
        place: 0,
        rest: live,
        relation: 0,
        count: 0,
        last: a,
    };
    if a < 64 {
        t.phase = REFUTED;
    }
    t
}
