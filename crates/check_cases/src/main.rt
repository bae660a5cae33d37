// Runs the stored cases of the sheet check and of drawing, and checks what the search writes. Standard input has a case a line, escaped as
// vectors/README.md says, in parts that begin behind a line of one word:
// - at first, a sheet and a query: the line of the check;
// - `draw`, a sheet and a query: the drawn graph in hex, the line of a refusal, or `none`;
// - `edits`, a sheet and a query: the answers to the sheet cut anywhere, and for each place of it the answers to every byte there;
// - `search`, an allowance and a query: the line of the query program, and behind an answer that of the check of its sheet;
// - `whole`, the same, and for a refuted claim the drawn graph in hex and as text.
#![tactic(auto)]

use case_lines::Cases;
use layout::{EDGE_BYTES, EVENT_BYTES, LONGEST_SHEET, MOST_WORDS};
use sheets::Part;

mod sheets; // sheets.rt: one case answered

// The part that begins behind the line, where it is one of those words.
fn part_named(text: &[u8]) -> Option<Part> {
    if texts::same(text, b"draw") {
        return Some(Part::Draw);
    }
    if texts::same(text, b"edits") {
        return Some(Part::Edits);
    }
    if texts::same(text, b"search") {
        return Some(Part::Search);
    }
    if texts::same(text, b"whole") {
        return Some(Part::Whole);
    }
    None
}

// Answers a case.
fn answer(
    text: &[u8],
    part: Part,
    words: &mut [u64],
    buffer: &mut [u8],
    graph: &mut [u8],
    out: &mut [u8],
) {
    match part {
        Part::Search => sheets::searched(text, false, words, buffer, graph, out),
        Part::Whole => sheets::searched(text, true, words, buffer, graph, out),
        _ => sheets::sheet_case(text, part, buffer, graph),
    }
}

// Takes a line: it begins a part, or is a case. The part that goes on.
fn take(
    text: &[u8],
    part: Part,
    words: &mut [u64],
    buffer: &mut [u8],
    graph: &mut [u8],
    out: &mut [u8],
) -> Part {
    if let Some(next) = part_named(text) {
        return next;
    }
    answer(text, part, words, buffer, graph, out);
    part
}

// Answers the cases of standard input, one after the other.
fn run(
    input: &mut [u8],
    text: &mut [u8],
    words: &mut [u64],
    buffer: &mut [u8],
    graph: &mut [u8],
    out: &mut [u8],
) {
    let mut used = Cases { at: 0, filled: 0 };
    let mut part = Part::Check;
    for _ in 0..1048576 {
        let Some(case) = case_lines::next(input, used, text) else {
            return;
        };
        let line = texts::first(text, case.bytes);
        part = take(line, part, words, buffer, graph, out);
        used = case.behind;
    }
}

fn main() {
    let mut input = [0u8; 65536];
    let mut text = [0u8; 163840];
    let mut words = [0u64; MOST_WORDS];
    let mut buffer = [0u8; LONGEST_SHEET];
    let mut graph = [0u8; EVENT_BYTES + EDGE_BYTES];
    let mut out = [0u8; 262144];
    run(
        &mut input,
        &mut text,
        &mut words,
        &mut buffer,
        &mut graph,
        &mut out,
    );
}
