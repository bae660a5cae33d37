// The circle: search, check, drawing and judge against each other. (vectors/README.md, "The circle") Standard input has a case a line, an
// allowance and a query. A refuted query's sheet is checked, drawn and judged: the graph meets every line and breaks the claim. For each
// proved query graphs are made and judged: where one meets every line, the claim holds. Whatever is otherwise is written as a line, and in
// the end how many of each there were.
#![tactic(auto)]

use case_lines::Cases;
use counts::{BREAKING, BROKEN, DRAWN, EDGED, GRAPHS, HOLDING, MEETING, MET, PASSING, REFUTED};
use layout::{EDGE_BYTES, EVENT_BYTES, LONGEST_SHEET, MOST_WORDS};
use streams::STDOUT;

mod graphs; // graphs.rt: small graphs for a query
mod counts; // counts.rt: the verdict of a query tried, and counted

// A case: an allowance, a space and a query. The number that goes on.
fn take(
    text: &[u8],
    place: u64,
    state: u64,
    words: &mut [u64],
    buffer: &mut [u8],
    graph: &mut [u8],
    counts: &mut [u64],
) -> u64 {
    let allowance = case_lines::number(text, text.len());
    let from = allowance.count + 1;
    if text.len() < from {
        return state;
    }
    let query = &text[from..];
    let r = search::search_alone(query, allowance.value, words, buffer);
    counts::tried(
        r,
        query,
        outcome_lines::sheet_of(r, buffer),
        place,
        state,
        graph,
        counts,
    )
}

// Writes a count and what is counted.
fn write_count(counts: &[u64], i: usize, what: &[u8]) {
    if counts.len() <= i {
        return;
    }
    io::print_decimal(STDOUT, counts[i]);
    io::write_all(STDOUT, what);
}

// Writes all counts.
fn write_counts(counts: &[u64]) {
    write_count(counts, REFUTED, b" refuted, ");
    write_count(counts, PASSING, b" passing, ");
    write_count(counts, DRAWN, b" drawn, ");
    write_count(counts, MET, b" judged line 0, ");
    write_count(counts, BROKEN, b" broken\n");
    write_count(counts, GRAPHS, b" graphs, ");
    write_count(counts, MEETING, b" with line 0, ");
    write_count(counts, EDGED, b" of them with edges, ");
    write_count(counts, HOLDING, b" holding, ");
    write_count(counts, BREAKING, b" others broken\n");
}

// Takes the cases of standard input, one after the other.
fn run(
    input: &mut [u8],
    text: &mut [u8],
    words: &mut [u64],
    buffer: &mut [u8],
    graph: &mut [u8],
    counts: &mut [u64],
) {
    let mut used = Cases { at: 0, filled: 0 };
    let mut state: u64 = 1;
    for place in 1..1048576 {
        let Some(case) = case_lines::next(input, used, text) else {
            return;
        };
        let line = texts::first(text, case.bytes);
        state = take(line, place, state, words, buffer, graph, counts);
        used = case.behind;
    }
}

// Takes all cases, and writes the counts.
fn whole(
    input: &mut [u8],
    text: &mut [u8],
    words: &mut [u64],
    buffer: &mut [u8],
    graph: &mut [u8],
    counts: &mut [u64],
) {
    run(input, text, words, buffer, graph, counts);
    write_counts(counts);
}

fn main() {
    let mut input = [0u8; 65536];
    let mut text = [0u8; 16384];
    let mut words = [0u64; MOST_WORDS];
    let mut buffer = [0u8; LONGEST_SHEET];
    let mut graph = [0u8; EVENT_BYTES + EDGE_BYTES];
    let mut counts = [0u64; 10];
    whole(
        &mut input,
        &mut text,
        &mut words,
        &mut buffer,
        &mut graph,
        &mut counts,
    );
}
