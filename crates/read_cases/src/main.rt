// Runs the stored cases for reading. Standard input has one query a line, escaped as vectors/README.md says; for each the program writes
// what the reader says of it. Of a query 4,097 bytes are kept: from there on it is too long, whatever follows.
#![tactic(auto)]

use case_lines::Cases;
use streams::STDOUT;

// Writes what the reader says of a query.
fn answer(text: &[u8]) {
    let mut out = [0u8; reading_line::LONGEST];
    let n = reading_line::line(text, &mut out);
    io::write_all(STDOUT, texts::first(&out, n));
}

// Answers the cases of standard input, one after the other.
fn run(part: &mut [u8], text: &mut [u8]) {
    let mut used = Cases { at: 0, filled: 0 };
    for _ in 0..1048576 {
        let Some(case) = case_lines::next(part, used, text) else {
            return;
        };
        answer(texts::first(text, case.bytes));
        used = case.behind;
    }
}

fn main() {
    let mut part = io::large_buffer();
    let mut text = [0u8; layout::LONGEST_QUERY + 1];
    run(&mut part, &mut text);
}
