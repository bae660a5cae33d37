// Runs the stored cases of the judge. Standard input has a case a line, a graph and a query, escaped as vectors/README.md says: at first the
// line of the judgement is written; behind a line `edits` the answers to the graph cut anywhere, and for each place of it those to every byte
// there.
#![tactic(auto)]

use case_checks::Asked;
use case_lines::Cases;
use streams::STDOUT;

// Writes the line of the judgement.
fn judged(query: &[u8], graph: &[u8], out: &mut [u8]) {
    let n = judge_line::line(graph::judge(query, graph), out);
    io::write_all(STDOUT, texts::first(out, n));
}

// Answers a case: the graph in hex, and the query behind a space.
fn answer(text: &[u8], edits: bool, buffer: &mut [u8], out: &mut [u8]) {
    let h = case_lines::hex(text, buffer);
    let from = h.count;
    let n = h.bytes;
    if text.len() <= from {
        return;
    }
    let query = &text[from + 1..];
    if edits {
        case_checks::edits(Asked::Judge, query, buffer, n);
        return;
    }
    judged(query, texts::first(buffer, n), out);
}

// Takes a line: it is a case, or the word behind which the edits begin. Whether they have begun.
fn take(text: &[u8], edits: bool, buffer: &mut [u8], out: &mut [u8]) -> bool {
    if texts::same(text, b"edits") {
        return true;
    }
    answer(text, edits, buffer, out);
    edits
}

// Answers the cases of standard input, one after the other.
fn run(input: &mut [u8], text: &mut [u8], buffer: &mut [u8], out: &mut [u8]) {
    let mut used = Cases { at: 0, filled: 0 };
    let mut edits = false;
    for _ in 0..1048576 {
        let Some(case) = case_lines::next(input, used, text) else {
            return;
        };
        edits = take(texts::first(text, case.bytes), edits, buffer, out);
        used = case.behind;
    }
}

fn main() {
    let mut input = [0u8; 65536];
    let mut text = [0u8; 65536];
    let mut buffer = [0u8; 32768];
    let mut out = [0u8; 256];
    run(&mut input, &mut text, &mut buffer, &mut out);
}
