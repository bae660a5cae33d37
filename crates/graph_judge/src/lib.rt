// The judge over the codes of a query: expressions are worked out as they come, each let once, at its line, and the end of a line looks at the
// tables that wait. (Document 01, "Sheet and graph bytes", last paragraph.) The first broken line and what breaks the claim are kept. What is
// required of a state is what the loop over the codes keeps: the places of tables and the number of a line are sums.
#![tactic(auto)]

ghost use Rattle.std.specs.Prelude.{◌+◌, ◌^◌, ◌≤◌, ◌<◌, ◌≡◌, false, cond, not, ◌&&◌, eqb};
ghost use Rattle.rows.specs.Rows.{lowest_pair};
ghost use Rattle.side_items.specs.Items.{paired};
ghost use Rattle.graph_tables.specs.Listed.{events_with};
ghost use Rattle.graph_tables.specs.Machine.{MOST-WAITING, judging, top, second};
ghost use Rattle.graph_judge.specs.Machine.{broken_if, found_now, kept_let, outside, unclosed, any_pair, any_loop, relation_line, judged_line, performed, performed_all, beginning};

use graph_read::Graph;
use graph_tables::{JudgedSoFar, SECOND, TABLES, TOP, events_with, load, operate, put, relation};
use rows::NOWHERE;

// The first broken line, where this one is broken or not.
fn first_broken(b: bool, broken: usize, line: usize) -> usize
    ensures { result ≡ cond (b && eqb broken 0) line broken }
{
    if b && broken == 0 { line } else { broken }
}

// A line ends that is broken or not.
fn broken_if(s: JudgedSoFar, b: bool) -> JudgedSoFar
    requires { s.line < 2 ^ 62 }
    ensures { result ≡ broken_if b s }
{
    JudgedSoFar {
        waiting: 0,
        line: s.line + 1,
        broken: first_broken(b, s.broken, s.line),
        ..s
    }
}

// The claim ends, and this is found of it.
fn found_now(s: JudgedSoFar, m: usize) -> JudgedSoFar
    requires { s.line < 2 ^ 62 }
    ensures { result ≡ found_now m s }
{
    JudgedSoFar {
        waiting: 0,
        line: s.line + 1,
        found: m,
        ..s
    }
}

// The line of a let ends: its table is kept for it.
fn keep(mem: &mut [[u64; 64]], s: JudgedSoFar) -> JudgedSoFar
    requires { (s.waiting ≤ MOST-WAITING) × (s.line < 2 ^ 62) }
    ensures { judging mem.new result ≡ kept_let (judging mem.old s) }
{
    let n = s.lets;
    if n < codes::MOST_LETS {
        let t = load(mem, TOP + s.waiting);
        put(mem, n, t);
        return JudgedSoFar {
            waiting: 0,
            lets: n + 1,
            line: s.line + 1,
            ..s
        };
    }
    broken_if(s, false)
}

// The lowest pair of the table on top.
fn any_pair(mem: &[[u64; 64]], s: JudgedSoFar) -> usize
    requires { s.waiting ≤ MOST-WAITING }
    ensures { result ≡ any_pair (judging mem.now s) }
{
    let t = load(mem, TOP + s.waiting);
    let none = [0u64; 64];
    rows::lowest_pair(&t, &none, s.events)
}

// The lowest event that the table on top relates to itself.
fn any_loop(mem: &[[u64; 64]], s: JudgedSoFar) -> usize
    requires { s.waiting ≤ MOST-WAITING }
    ensures { result ≡ any_loop (judging mem.now s) }
{
    let t = load(mem, TOP + s.waiting);
    rows::lowest_loop(&t, s.events)
}

// The lowest pair of the second table that the one on top lacks.
fn apart(mem: &[[u64; 64]], s: JudgedSoFar) -> usize
    requires { s.waiting ≤ MOST-WAITING }
    ensures { result ≡ lowest_pair (second (judging mem.now s)) (top (judging mem.now s)) s.events }
{
    let t = load(mem, SECOND + s.waiting);
    let u = load(mem, TOP + s.waiting);
    rows::lowest_pair(&t, &u, s.events)
}

// Whether relation r has a pair that does not go from T to U, the two tables that wait.
fn leaves_limits(listed: &Graph, mem: &[[u64; 64]], s: JudgedSoFar, r: u64) -> bool
    requires { s.waiting ≤ MOST-WAITING }
    ensures { result ≡ outside listed.now (judging mem.now s) r }
{
    let t = load(mem, SECOND + s.waiting);
    let u = load(mem, TOP + s.waiting);
    let edges = relation(listed, r);
    let from = rows::sequence(t, &edges);
    let within = rows::sequence(from, &u);
    rows::lowest_pair(&edges, &within, s.events) < NOWHERE
}

// Whether relation r lacks a pair that two of its pairs in a row lead to.
fn lacks_pair(listed: &Graph, s: JudgedSoFar, r: u64) -> bool
    ensures { result ≡ unclosed listed.now s r }
{
    let edges = relation(listed, r);
    let twice = rows::sequence(edges, &edges);
    rows::lowest_pair(&twice, &edges, s.events) < NOWHERE
}

// Whether some event satisfies the test with this set of atoms.
fn some_event(listed: &Graph, s: JudgedSoFar, x: u64) -> bool
    ensures { result ≡ not (eqb (events_with listed.now s.events x) 0) }
{
    events_with(listed, s.events, x) != 0
}

// The state behind a line on a relation, or one with nothing to judge.
fn relation_line(listed: &Graph, mem: &[[u64; 64]], s: JudgedSoFar, k: u64) -> JudgedSoFar
    requires { (s.waiting ≤ MOST-WAITING) × (s.line < 2 ^ 62) }
    ensures { result ≡ relation_line listed.now (judging mem.now s) k }
{
    if k < codes::WITHIN_LINE {
        return broken_if(s, false);
    }
    if k < codes::CLOSED_LINE {
        return broken_if(s, leaves_limits(listed, mem, s, k - codes::WITHIN_LINE));
    }
    if k < codes::CLOSED_END {
        return broken_if(s, lacks_pair(listed, s, k - codes::CLOSED_LINE));
    }
    broken_if(s, false)
}

// The state behind the end of a line that is no let, or behind the left side of an inclusion.
fn judged_line(listed: &Graph, mem: &[[u64; 64]], s: JudgedSoFar, k: u64, x: u64) -> JudgedSoFar
    requires { (s.waiting ≤ MOST-WAITING) × (s.line < 2 ^ 62) }
    ensures { result ≡ judged_line listed.now (judging mem.now s) k x }
{
    match k {
        codes::NEVER_LINE => broken_if(s, some_event(listed, s, x)),
        codes::ASSUME_EMPTY => broken_if(s, any_pair(mem, s) < NOWHERE),
        codes::ASSUME_IRREFLEXIVE => broken_if(s, any_loop(mem, s) < NOWHERE),
        codes::INCLUDED => s,
        codes::CLAIM_INCLUDE => found_now(s, apart(mem, s)),
        codes::CLAIM_EMPTY => found_now(s, any_pair(mem, s)),
        codes::CLAIM_IRREFLEXIVE => found_now(s, any_loop(mem, s)),
        _ => relation_line(listed, mem, s, k),
    }
}

// One code with what it needs.
fn perform(listed: &Graph, mem: &mut [[u64; 64]], s: JudgedSoFar, k: u64, x: u64) -> JudgedSoFar
    requires { (s.waiting ≤ MOST-WAITING) × (s.line < 2 ^ 62) }
    ensures { judging mem.new result ≡ performed listed.now (judging mem.old s) (record { code = k; arg = x }) }
{
    if k < codes::LINE {
        return operate(listed, mem, s, k, x);
    }
    if k == codes::LET_LINE {
        return keep(mem, s);
    }
    judged_line(listed, mem, s, k, x)
}

// The codes, one after another, each with what it needs. They may be those of a whole query, or of one expression of it: its table is on top then.
fn run(
    listed: &Graph,
    mem: &mut [[u64; 64]],
    s: JudgedSoFar,
    codes: &[u64],
    args: &[u64],
) -> JudgedSoFar
    requires { (s.waiting ≤ MOST-WAITING) × (s.line ≤ 4096) }
    ensures { judging mem.new result ≡ performed_all listed.now (judging mem.old s) (paired codes.now args.now) }
{
    let mut t = s;
    let n = memory::least(codes.len(), args.len());
    for i in 0..n {
        t = perform(listed, mem, t, codes[i], args[i]);
    }
    t
}

// The codes of a query on a graph of n events: the first broken line, and what is found of the claim. The tables are this call's own memory.
pub fn judge(listed: &Graph, n: usize, codes: &[u64], args: &[u64]) -> JudgedSoFar
    ensures { result ≡ (performed_all listed.now (beginning n) (paired codes.now args.now)).state }
{
    let mut mem = [[0u64; 64]; TABLES];
    let s = JudgedSoFar {
        events: n,
        waiting: 0,
        lets: 0,
        line: 1,
        broken: 0,
        found: NOWHERE,
    };
    run(listed, &mut mem, s, codes, args)
}
