// A drawn graph as text for the program `dot`: an event with its number and the tests that hold of it, an edge with its relation, by the query's own
// names; solid where it is a step of the word, dashed where it comes from closing. What does not fit is left out.
#![tactic(auto)]

ghost use Rattle.std.specs.Prelude.{◌*◌, ◌≤◌, ◌≡◌, [], not, cond, length, drop};
ghost use Rattle.kat.specs.Lists.{is_empty};
ghost use Rattle.claims.specs.Query.{bit};
ghost use Rattle.claims.specs.GraphWriting.{edge_of};
ghost use Rattle.print_line.specs.Puts.{Puts};
ghost use Rattle.dot.specs.DotText.{is_step, test_text, tests_text, event_line, event_lines, style_text, edge_line, edge_lines, atoms_in, edges_in, dot_text};

use memory::least;
use print_line::{put_byte, put_decimal, put_text};

// Whether the edge of relation r from an event to another is a step of the word, in a graph of so many events: the step that begins at the
// event, to the next one, or from the last to the first.
fn is_step(word: &[u8], count: usize, r: u8, from: u8, to: u8) -> bool
    ensures { result ≡ is_step word.now count r from to }
{
    let i = 2 * (from as usize) + 1;
    if word.len() <= i {
        return false;
    }
    if word[i] != r {
        return false;
    }
    if from as usize + 1 == count {
        return to == 0;
    }
    to as usize == from as usize + 1
}

// The name of test i behind a space, where it holds by an atom.
fn put_test(out: &mut [u8], at: usize, text: &[u8], i: usize, atom: u64) -> usize
    ensures { Puts out.old at (cond (bit i atom) (test_text text.now i) []) result out.new }
{
    if bits::member(atom, i) {
        let a = put_byte(out, at, b' ');
        return put_text(out, a, texts::name(text, b"test", i));
    }
    least(at, out.len())
}

// The names of the tests that hold by an atom, each behind a space.
fn put_tests(out: &mut [u8], at: usize, text: &[u8], atom: u64) -> usize
    ensures { Puts out.old at (tests_text text.now atom) result out.new }
{
    let mut to = least(at, out.len());
    for i in 0..6 {
        to = put_test(out, to, text, i, atom);
    }
    to
}

// The line of an event.
fn put_event(out: &mut [u8], at: usize, text: &[u8], event: usize, atom: u8) -> usize
    ensures { Puts out.old at (event_line text.now event atom) result out.new }
{
    let a = put_text(out, at, b"  ");
    let b = put_decimal(out, a, event as u64);
    let c = put_text(out, b, b" [label=\"");
    let d = put_decimal(out, c, event as u64);
    let e = put_tests(out, d, text, atom as u64);
    put_text(out, e, b"\"];\n")
}

// Whether the field of an event stands at a place of the graph.
fn event_at(graph: &[u8], at: usize) -> bool
    ensures { result ≡ not (is_empty (atoms_in (drop at graph.now))) }
{
    if graph.len() < 4 {
        return false;
    }
    if graph.len() - 4 < at {
        return false;
    }
    graph[at] == 1
}

// How many events the graph has: its first fields, four bytes each.
fn events(graph: &[u8]) -> usize
    ensures { (result ≡ length (atoms_in graph.now)) × (4 * result ≤ length graph.now) }
{
    let mut at = 0;
    let mut n = 0;
    while event_at(graph, at) {
        at += 4;
        n += 1;
    }
    n
}

// The lines of the events.
fn put_events(out: &mut [u8], at: usize, text: &[u8], graph: &[u8]) -> usize
    ensures { Puts out.old at (event_lines text.now 0 (atoms_in graph.now)) result out.new }
{
    let mut to = least(at, out.len());
    let mut field = 0;
    let mut event = 0;
    while event_at(graph, field) {
        to = put_event(out, to, text, event, graph[field + 3]);
        field += 4;
        event += 1;
    }
    to
}

// The end of the line of an edge.
fn put_style(out: &mut [u8], at: usize, step: bool) -> usize
    ensures { Puts out.old at (style_text step) result out.new }
{
    if step {
        return put_text(out, at, b"\"];\n");
    }
    put_text(out, at, b"\", style=dashed];\n")
}

// The line of an edge.
fn put_edge(out: &mut [u8], at: usize, text: &[u8], step: bool, r: u8, from: u8, to: u8) -> usize
    ensures { Puts out.old at (edge_line text.now step (edge_of r from to)) result out.new }
{
    let a = put_text(out, at, b"  ");
    let b = put_decimal(out, a, from as u64);
    let c = put_text(out, b, b" -> ");
    let d = put_decimal(out, c, to as u64);
    let e = put_text(out, d, b" [label=\"");
    let f = put_text(out, e, texts::name(text, b"rel", r as usize));
    put_style(out, f, step)
}

// The lines of edges, which stand in the bytes, in a graph of n events drawn from the word.
fn put_edges(out: &mut [u8], at: usize, text: &[u8], word: &[u8], n: usize, edges: &[u8]) -> usize
    ensures { Puts out.old at (edge_lines text.now word.now n (edges_in edges.now)) result out.new }
{
    let mut to = least(at, out.len());
    let mut field = 0;
    while 6 <= edges.len() - field {
        let r = edges[field + 3];
        let x = edges[field + 4];
        let y = edges[field + 5];
        to = put_edge(out, to, text, is_step(word, n, r, x, y), r, x, y);
        field += 6;
    }
    to
}

// The text of a drawn graph, from the query, the word that refutes and the graph's bytes, as far as it fits; how many bytes it has.
pub fn dot(text: &[u8], word: &[u8], graph: &[u8], out: &mut [u8]) -> usize
    ensures { Puts out.old 0 (dot_text text.now word.now graph.now) result out.new }
{
    let n = events(graph);
    let a = put_text(
        out,
        0,
        b"digraph counterexample {\n  rankdir=LR;\n  node [shape=box];\n",
    );
    let b = put_events(out, a, text, graph);
    let c = put_edges(out, b, text, word, n, &graph[4 * n..]);
    put_text(out, c, b"}\n")
}
