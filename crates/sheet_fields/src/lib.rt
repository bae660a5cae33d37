// What a part of a sheet says, read field by field from any place on: a verdict with its standings or its word, or how many good fields stand
// before the first wrong one. (Document 01, "Sheet and graph bytes" and refusal 13.) One loop keeps a reader and moves it to where the field
// that it read ended; all that is decided of a field is decided by `step`. Each standing is looked up among those before it by an index,
// which is left behind for the check.
#![tactic(auto)]

ghost use Rattle.std.specs.Prelude.{ℕ, ◌+◌, ◌-◌, ◌≡◌, List, drop};
ghost use Rattle.claims.specs.Sides.{Decision};
ghost use Rattle.claims.specs.Fields.{next_field};
ghost use Rattle.claims.specs.SheetReading.{part_in};
ghost use Rattle.memory.specs.Memory.{zeros};
ghost use Rattle.fields.specs.Places.{Stands};
ghost use Rattle.query.specs.Decided.{Decided};
ghost use Rattle.sheet_index.specs.Index.{SLOTS};
ghost use Rattle.layout.specs.Layout.{MOST-STANDINGS};
ghost use Rattle.sheet_fields.specs.Reads.{ListedAt, Inside, Reads};
ghost use Rattle.sheet_fields.specs.inner.Between.{fields_left, AtVerdict, AtStanding, AtWord, Answered, Between, Goes};

use fields::Field;
use layout::MOST_STANDINGS;
use query::Facts;
use sheet_fits::Verdict;
use sheet_index::{Chain, Heads};

// Proved, with the place where the fields of the standings begin, their number, and the place where the next field would start; or refuted,
// with the places where the word's bytes begin and end.
#[derive(Clone, Copy)]
pub enum PartRead {
    Proved(usize, usize, usize),
    Refuted(usize, usize),
}

// The standings read so far: the place where their fields begin, and their number.
#[derive(Clone, Copy)]
struct Standings {
    base: usize,
    count: usize,
}

// The field that is awaited next.
#[derive(Clone, Copy)]
enum Awaited {
    Verdict,
    Standing(Standings),
    Word,
}

// After a good field: what is awaited, from the place where the field ended; or what the part says.
#[derive(Clone, Copy)]
enum Turn {
    On(Awaited, usize),
    Over(PartRead),
}

// The verdict's field was read: the standings or the word are awaited, from its end on.
fn verdict_read(sheet: &[u8], field: Option<Field>) -> Result<Turn, usize>
    requires { (at : ℕ) × Stands sheet.now at (next_field (drop at sheet.now)) field }
    ensures { (f : Facts) (first at : ℕ) (heads chain : List ℕ) → Stands sheet.now at (next_field (drop at sheet.now)) field
        → AtVerdict first heads chain at → Goes f sheet.now first heads chain (MOST-STANDINGS + 3) result }
{
    let Some(whole) = field else {
        return Err(0);
    };
    if whole.tag != 1 {
        return Err(0);
    }
    match sheet_fits::read_verdict(&sheet[whole.from..whole.to]) {
        Some(Verdict::Proved) => {
            let none = Standings {
                base: whole.to,
                count: 0,
            };
            Ok(Turn::On(Awaited::Standing(none), whole.to))
        }
        Some(Verdict::Refuted) => Ok(Turn::On(Awaited::Word, whole.to)),
        None => Err(0),
    }
}

// A field was read where a standing may stand: it is the next standing and goes into the index, or it is wrong; one more than MOST_STANDINGS is. Where
// the field's tag is another there is no further standing.
fn standing_read(
    f: Facts,
    sheet: &[u8],
    at: usize,
    field: Option<Field>,
    s: Standings,
    heads: &mut Heads,
    chain: &mut Chain,
) -> Result<Turn, usize>
    requires { Stands sheet.now at (next_field (drop at sheet.now)) field
        × ListedAt f.ring sheet.now heads.old chain.old s.base s.count at }
    ensures { (first : ℕ) → AtStanding f sheet.now first heads.old chain.old s.base s.count at
        → Goes f sheet.now first heads.new chain.new (MOST-STANDINGS + 2 - s.count) result }
{
    if !fields::tagged(sheet, at, 3) {
        return Ok(Turn::Over(PartRead::Proved(s.base, s.count, at)));
    }
    let count = s.count + 1;
    let Some(whole) = field else {
        return Err(count);
    };
    if s.count == MOST_STANDINGS {
        return Err(count);
    }
    if !sheet_fits::is_sized(whole.to - whole.from, f.ring) {
        return Err(count);
    }
    if !sheet_fits::may_list(f, sheet, s.base, heads, chain, s.count, at) {
        return Err(count);
    }
    sheet_index::add(sheet, s.base, f.ring, heads, chain, s.count);
    let more = Standings {
        base: s.base,
        count,
    };
    Ok(Turn::On(Awaited::Standing(more), whole.to))
}

// The word's field was read.
fn word_read(f: Facts, sheet: &[u8], field: Option<Field>) -> Result<Turn, usize>
    requires { (at : ℕ) × Stands sheet.now at (next_field (drop at sheet.now)) field }
    ensures { (first at : ℕ) (heads chain : List ℕ) → Stands sheet.now at (next_field (drop at sheet.now)) field
        → AtWord f sheet.now first heads chain at → Goes f sheet.now first heads chain 1 result }
{
    let Some(whole) = field else {
        return Err(1);
    };
    if whole.tag != 2 {
        return Err(1);
    }
    if !sheet_word::fits(&sheet[whole.from..whole.to], f.atoms, f.relations) {
        return Err(1);
    }
    Ok(Turn::Over(PartRead::Refuted(whole.from, whole.to)))
}

// The field at place `at` was read, by what was awaited: all that is decided of it. Or so many good ones stand before it, and it is wrong.
fn step(
    f: Facts,
    sheet: &[u8],
    at: usize,
    field: Option<Field>,
    awaited: Awaited,
    heads: &mut Heads,
    chain: &mut Chain,
) -> Result<Turn, usize>
    requires { Stands sheet.now at (next_field (drop at sheet.now)) field
        × ((first : ℕ) × Between f sheet.now first heads.old chain.old awaited at) }
    ensures { (first : ℕ) → Between f sheet.now first heads.old chain.old awaited at
        → Goes f sheet.now first heads.new chain.new (fields_left awaited) result }
{
    match awaited {
        Awaited::Verdict => verdict_read(sheet, field),
        Awaited::Standing(s) => standing_read(f, sheet, at, field, s, heads, chain),
        Awaited::Word => word_read(f, sheet, field),
    }
}

// What the part from place `at` on says, read field by field, each from where the last one ended; or the number of good fields before the first
// wrong one. The index, which is lent, has nothing in it at first, as its caller made it; behind the call it has the standings, or those before a
// wrong one.
pub fn part_at(
    f: Facts,
    sheet: &[u8],
    at: usize,
    heads: &mut Heads,
    chain: &mut Chain,
) -> Result<PartRead, usize>
    requires { (heads.old ≡ zeros SLOTS) × (chain.old ≡ zeros MOST-STANDINGS) }
    ensures inside { Inside f.ring sheet.now at heads.new chain.new result }
    ensures read { (left right : List ℕ) (D : Decision) → Decided f left right D → (k : ℕ)
        → Reads f.ring D sheet.now k (part_in D k (drop at sheet.now)) result }
{
    let mut r = sheet_reader::from(sheet, at);
    let mut awaited = Awaited::Verdict;
    loop {
        let field = sheet_reader::field(r);
        match step(f, sheet, r.at, field, awaited, heads, chain)? {
            Turn::On(next, end) => {
                awaited = next;
                r = sheet_reader::moved(r, end);
            }
            Turn::Over(part) => return Ok(part),
        }
    }
}
