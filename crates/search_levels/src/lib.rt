// The levels of the search, one candidate a turn. (Document 01, "Standings".) Fresh standings are kept in the order of their least prefix, so the
// memory is the queue: a level is a range of standings, and the next level is what is fresh one letter behind each of them. Place 0 is the
// empty prefix, place i + 1 is standing i. The standing past the allowance is counted and not kept. A turn loads a record, steps, looks a
// candidate up, decides, and keeps a record; only `turn` and `levels` know the records, and they know nothing else. What is required
// of the room is what the search call has tested (refusal 9), and of the relations what the reader lets through.
#![tactic(auto)]

ghost use Rattle.std.specs.Prelude.{ℕ, suc, ◌-◌, ◌≤◌, ◌<◌, ◌≡◌, List, length};
ghost use Rattle.search_standings.specs.declared.Shape.{Shape};
ghost use Rattle.search_records.specs.Rows.{rows, record_at};
ghost use Rattle.search_grow.specs.Masks.{letters_in};
ghost use Rattle.search_grow.specs.Kept.{state, Inside, Ready};
ghost use Rattle.search_course.specs.Answers.{Answered};
ghost use Rattle.search_course.specs.Turns.{turn_weight, Small, At, Stepped};

use search_course::{BEGINS, COMPLETES, Course, Finding, Move, PROVED};
use search_records::Record;
use search_standings::Shape;
use side_tables::Table;

// One step: of the standing that is looked at, or of the next letter behind its place.
fn step(
    k: Shape,
    cap: usize,
    left: &Table,
    right: &Table,
    first: &[u64; 16],
    later: &[u64; 16],
    from: Record,
    words: &mut [u64],
    t: Course,
) -> Move
    requires { Small k.ring k.relations cap (length words.old) t × (t.phase < 3) }
    ensures { (r : List (List ℕ)) → from ≡ record_at r t.at
        → At k left.now right.now first.now later.now cap t r words.old
        → Stepped k left.now right.now first.now later.now cap t result r words.old
        words.new × (turn_weight result.course < turn_weight t) }
{
    if t.phase == COMPLETES {
        return search_course::quiet(search_candidates::complete(k, left, right, from, words, t));
    }
    if t.phase == BEGINS {
        return search_candidates::try_letter(k, cap, left, right, first, from, words, t);
    }
    search_candidates::try_letter(k, cap, left, right, later, from, words, t)
}

// One turn: a record is loaded, a step made, a candidate looked up, what becomes of it decided, and a record kept.
fn turn(
    k: Shape,
    cap: usize,
    left: &Table,
    right: &Table,
    first: &[u64; 16],
    later: &[u64; 16],
    records: &mut [Record],
    words: &mut [u64],
    t: Course,
) -> Course
    requires { (k.relations ≤ 16) × (t.phase < 3)
        × At k left.now right.now first.now later.now cap t (rows records.old) words.old }
    ensures { Inside k.ring cap (state (rows records.old) words.old t.count) (state (rows records.new) words.new result.count)
        × At k left.now right.now first.now later.now cap result (rows records.new) words.new
        × (turn_weight result < turn_weight t) }
{
    let from = search_records::load(records, t.at);
    let m = step(k, cap, left, right, first, later, from, words, t);
    let Some(o) = m.offer else {
        return m.course;
    };
    let found = search_records::find(records, o.seek, o.p, o.s);
    if search_course::puts(cap, m.course, found) {
        search_records::keep(records, o.seek, search_course::record_of(m.course, o));
    }
    search_course::settle(m.course, found)
}

// Level by level from level 0 on, turn by turn. Level 1 tries the letters of one array of masks, later levels those of another.
pub fn levels(
    k: Shape,
    cap: usize,
    left: &Table,
    right: &Table,
    first: &[u64; 16],
    later: &[u64; 16],
    records: &mut [Record],
    words: &mut [u64],
) -> Finding
    requires { Ready k.ring cap (state (rows records.old) words.old 0) × (k.relations ≤ 16) }
    ensures { Inside k.ring cap (state (rows records.old) words.old 0) (state (rows records.new) words.new 0)
        × Answered k left.now right.now (letters_in first.now k.live k.relations)
        (letters_in later.now k.live k.relations) (suc (suc cap)) cap (rows records.new) words.new result }
{
    let mut t = search_course::start(k.live, left, right);
    while t.phase < PROVED {
        t = turn(k, cap, left, right, first, later, records, words, t);
    }
    search_course::finding_of(t)
}
