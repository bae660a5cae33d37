// The call of the judge: the query and the graph are read, the graph is judged, and the judgement is written: on standard output its line,
// on standard error what it means. What is read and written no contract can say; the line and the words are said by the crates that make them.
// A graph that is not refused has at most 64 events of 4 bytes and 4,096 edges of 6 bytes for each of 16 relations: 393,472 bytes. So the
// field that stands at the byte behind them is wrong, whatever it is: a 65th event, an event behind an edge, an edge repeated, or no such
// field; one that is cut is wrong too and has the same number. Hence no more than 393,473 bytes are read.
use crate::input::TEXT;
use codes::MOST_RELATIONS;
use layout::{EDGE_BYTES, EVENT_BYTES};
use streams::{STDERR, STDOUT};

// The bytes of the largest graph, and one more.
const GRAPH: usize = EVENT_BYTES + MOST_RELATIONS * EDGE_BYTES + 1;

// Judges, and writes the line of the judgement and what it means.
fn show(text: &[u8], graph: &[u8], out: &mut [u8]) {
    let said = judge_line::judged_line(text, graph, out);
    crate::output::write(STDOUT, out, said.bytes);
    let j = said.judged;
    let m = judge_line::words(j, text, out);
    crate::output::write(STDERR, out, m);
}

// Reads the query and the graph into the memory, and judges.
fn judge_into(
    rt: HostRuntime,
    query: usize,
    graph: usize,
    text: &mut [u8],
    buffer: &mut [u8],
    out: &mut [u8],
) {
    let Some(n) = crate::input::read(rt, query, text) else {
        return;
    };
    let Some(m) = crate::input::read(rt, graph, buffer) else {
        return;
    };
    show(texts::first(text, n), texts::first(buffer, m), out);
}

// Judges the graph for the query, both being known by the arguments that name them.
pub fn judge(rt: HostRuntime, query: usize, graph: usize) {
    let mut text = [0u8; TEXT];
    let mut buffer = [0u8; GRAPH];
    let mut out = [0u8; 8192];
    judge_into(rt, query, graph, &mut text, &mut buffer, &mut out);
}
