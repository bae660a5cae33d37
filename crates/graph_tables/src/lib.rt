// The tables of expressions: each code of an expression changes the tables that wait. (Document 01, "Sheet and graph bytes", last paragraph.) The
// memory has TABLES tables, a row for each event: first one for each let, and behind them those that wait, the last on top. A graph is the memory
// that `graph_read` fills. That at most MOST_WAITING tables wait is what the judge's loop keeps.
#![tactic(auto)]

ghost use Rattle.std.specs.Prelude.{◌+◌, ◌≤◌, ◌<◌, ◌≡◌, length, get_or, set};
ghost use Rattle.memory.specs.Memory.{words};
ghost use Rattle.rows.specs.Rows.{blank, joined, composed, reflexive, rounds};
ghost use Rattle.graph_tables.specs.Listed.{relation_rows, events_with};
ghost use Rattle.graph_tables.specs.Machine.{MOST-WAITING, judging, waiting_now, pushed, changed_top, merged, operated};

use codes::{MOST_LETS, MOST_RELATIONS};
use graph_read::{ATOMS_AT, Graph, MOST_EVENTS};
use memory::word;

// Where the judge stands: the number of events; how many tables wait; how many lets there were; the number of the line; the first line that is
// broken, or 0; and the lowest pair or event that breaks the claim, or NOWHERE.
#[derive(Clone, Copy)]
pub struct JudgedSoFar {
    pub events: usize,
    pub waiting: usize,
    pub lets: usize,
    pub line: usize,
    pub broken: usize,
    pub found: usize,
}

// How many tables may wait: 67 for an expression, and the left side of an inclusion below them.
const MOST_WAITING: usize = 68;

// All tables.
pub const TABLES: usize = MOST_LETS + MOST_WAITING;

// Where w tables wait the next one goes to place NEXT + w; the one on top stands at place TOP + w, and the one below it at place SECOND + w.
const NEXT: usize = MOST_LETS;

pub const TOP: usize = NEXT - 1;

pub const SECOND: usize = NEXT - 2;

// The table at a place, and past the memory a blank one.
pub fn load(mem: &[[u64; 64]], i: usize) -> [u64; 64]
    ensures { result ≡ get_or mem.now i blank }
{
    if i < mem.len() { mem[i] } else { [0u64; 64] }
}

// A table put at a place, where the memory has it.
pub fn put(mem: &mut [[u64; 64]], i: usize, t: [u64; 64])
    ensures { mem.new ≡ set mem.old i t }
{
    if i < mem.len() {
        mem[i] = t;
    }
}

// Rows from a place of the graph on. The sum asks for a bound.
fn copy(out: &mut [u64], listed: &[u64], base: usize)
    requires { (length out.old ≤ 64) × (base < 4096) }
    ensures { out.new ≡ words (length out.old) (λ x. get_or listed.now (base + x) 0) }
{
    for (x, row) in out.iter_mut().enumerate() {
        *row = word(listed, base + x);
    }
}

// The listed edges of relation r.
pub fn relation(listed: &Graph, r: u64) -> [u64; 64]
    ensures { result ≡ relation_rows listed.now r }
{
    let mut rows = [0u64; 64];
    if r < MOST_RELATIONS as u64 {
        copy(&mut rows, listed, MOST_EVENTS * r as usize);
    }
    rows
}

// The state with so many tables that wait.
fn waiting_now(s: JudgedSoFar, w: usize) -> JudgedSoFar
    ensures { result ≡ waiting_now s w }
{
    JudgedSoFar { waiting: w, ..s }
}

// A table more, if there is room.
fn push(mem: &mut [[u64; 64]], s: JudgedSoFar, t: [u64; 64]) -> JudgedSoFar
    ensures { judging mem.new result ≡ pushed (judging mem.old s) t }
{
    let w = s.waiting;
    if w < MOST_WAITING {
        put(mem, NEXT + w, t);
        return waiting_now(s, w + 1);
    }
    s
}

// Those of n events whose atom is in the set.
pub fn events_with(listed: &Graph, n: usize, s: u64) -> u64
    ensures { result ≡ events_with listed.now n s }
{
    let words = &listed[..];
    rows::events_in(&words[ATOMS_AT..], n, s)
}

// `|`: one table in place of the upper two.
fn unite(mem: &mut [[u64; 64]], s: JudgedSoFar) -> JudgedSoFar
    requires { s.waiting ≤ MOST-WAITING }
    ensures { judging mem.new result ≡ merged joined (judging mem.old s) }
{
    let w = s.waiting;
    let t = load(mem, SECOND + w);
    let u = load(mem, TOP + w);
    put(mem, SECOND + w, rows::union(t, &u));
    waiting_now(s, memory::less(w))
}

// `;`: the same.
fn chain(mem: &mut [[u64; 64]], s: JudgedSoFar) -> JudgedSoFar
    requires { s.waiting ≤ MOST-WAITING }
    ensures { judging mem.new result ≡ merged composed (judging mem.old s) }
{
    let w = s.waiting;
    let t = load(mem, SECOND + w);
    let u = load(mem, TOP + w);
    put(mem, SECOND + w, rows::sequence(t, &u));
    waiting_now(s, memory::less(w))
}

// `+`: the table on top changed.
fn repeat(mem: &mut [[u64; 64]], s: JudgedSoFar) -> JudgedSoFar
    requires { s.waiting ≤ MOST-WAITING }
    ensures { judging mem.new result ≡ changed_top (λ t. rounds t s.events s.events) (judging mem.old s) }
{
    let w = s.waiting;
    let t = load(mem, TOP + w);
    put(mem, TOP + w, rows::plus(t, s.events));
    s
}

// `?`: the same.
fn allow_none(mem: &mut [[u64; 64]], s: JudgedSoFar) -> JudgedSoFar
    requires { s.waiting ≤ MOST-WAITING }
    ensures { judging mem.new result ≡ changed_top (λ t. reflexive t s.events) (judging mem.old s) }
{
    let w = s.waiting;
    let t = load(mem, TOP + w);
    put(mem, TOP + w, rows::optional(t, s.events));
    s
}

// `*`: `+`, then `?`.
fn repeat_or_none(mem: &mut [[u64; 64]], s: JudgedSoFar) -> JudgedSoFar
    requires { s.waiting ≤ MOST-WAITING }
    ensures { judging mem.new result ≡ changed_top (λ t. reflexive (rounds t s.events s.events) s.events) (judging mem.old s) }
{
    let w = s.waiting;
    let t = load(mem, TOP + w);
    let u = rows::plus(t, s.events);
    put(mem, TOP + w, rows::optional(u, s.events));
    s
}

// A code of an expression, with what it needs. The place of a table on top is a sum: that at most MOST_WAITING wait, which is required, is what the judge's
// loop over the codes keeps.
pub fn operate(listed: &Graph, mem: &mut [[u64; 64]], s: JudgedSoFar, k: u64, x: u64) -> JudgedSoFar
    requires { s.waiting ≤ MOST-WAITING }
    ensures { judging mem.new result ≡ operated listed.now (judging mem.old s) k x }
{
    match k {
        codes::TESTED => push(mem, s, rows::tested(events_with(listed, s.events, x))),
        codes::UNION => unite(mem, s),
        codes::SEQUENCE => chain(mem, s),
        codes::STAR => repeat_or_none(mem, s),
        codes::PLUS => repeat(mem, s),
        codes::OPTIONAL => allow_none(mem, s),
        codes::A_RELATION..=codes::LAST_RELATION => push(
            mem,
            s,
            relation(listed, k - codes::A_RELATION),
        ),
        codes::A_LET..=95 => {
            let t = load(mem, (k - codes::A_LET) as usize);
            push(mem, s, t)
        }
        _ => s,
    }
}
