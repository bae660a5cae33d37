// Runs the stored cases of the search at any allowance. Standard input has an allowance, a space and a query a line, escaped as
// vectors/README.md says; for each the program writes the line of the query program. Behind a line that is the word `sheet` it writes the
// bytes of the sheet in hex instead, or the refusal.
#![tactic(auto)]

use case_lines::Cases;
use layout::{MOST_STANDINGS, RING_FIELD, RING_WORDS, VERDICT};
use memory::wide;
use refusals::Refusal;
use search_outcomes::Verdict;
use streams::STDOUT;

// The words of the working memory at the largest allowance.
const WORDS: usize = RING_WORDS * MOST_STANDINGS;

// The bytes of the longest sheet.
const BYTES: usize = VERDICT + RING_FIELD * MOST_STANDINGS;

// Whether the line is the one behind which sheets are asked for.
fn asks_sheets(text: &[u8], n: usize) -> bool {
    n == 5 && text.first() == Some(&b's')
}

// Writes the line of an outcome.
fn write_line(r: Result<Verdict, Refusal>, buffer: &[u8], out: &mut [u8]) {
    let m = outcome_lines::outcome_line(r, buffer, out);
    if m <= out.len() {
        io::write_all(STDOUT, &out[..m]);
    }
}

// Writes bytes in hex, and the end of the line.
fn write_hex(bytes: &[u8]) {
    for b in bytes {
        io::print_hex(STDOUT, wide(*b), 2);
    }
    io::write_all(STDOUT, b"\n");
}

// Writes the sheet of an answer, or the line of a refusal.
fn write_sheet(r: Result<Verdict, Refusal>, buffer: &[u8], out: &mut [u8]) {
    if let Err(_) = r {
        write_line(r, buffer, out);
        return;
    }
    write_hex(outcome_lines::sheet_of(r, buffer));
}

// Searches the query that stands behind the allowance in the first n bytes of the text, and writes its line or its sheet.
fn answer(
    text: &[u8],
    n: usize,
    sheets: bool,
    words: &mut [u64],
    buffer: &mut [u8],
    out: &mut [u8],
) {
    let allowance = case_lines::number(text, n);
    let from = allowance.count + 1;
    if n <= text.len() {
        if from <= n {
            let r = search::search_alone(&text[from..n], allowance.value, words, buffer);
            if sheets {
                write_sheet(r, buffer, out);
                return;
            }
            write_line(r, buffer, out);
        }
    }
}

// Answers a case; whether sheets are asked for from then on.
fn take(
    text: &[u8],
    n: usize,
    sheets: bool,
    words: &mut [u64],
    buffer: &mut [u8],
    out: &mut [u8],
) -> bool {
    if asks_sheets(text, n) {
        return true;
    }
    answer(text, n, sheets, words, buffer, out);
    sheets
}

// Answers the cases of standard input, one after the other.
fn run(part: &mut [u8], text: &mut [u8], words: &mut [u64], buffer: &mut [u8], out: &mut [u8]) {
    let mut used = Cases { at: 0, filled: 0 };
    let mut sheets = false;
    for _ in 0..1048576 {
        let Some(case) = case_lines::next(part, used, text) else {
            return;
        };
        sheets = take(text, case.bytes, sheets, words, buffer, out);
        used = case.behind;
    }
}

fn main() {
    let mut part = [0u8; 65536];
    let mut text = [0u8; 4120];
    let mut words = [0u64; WORDS];
    let mut buffer = [0u8; BYTES];
    let mut out = [0u8; 32768];
    run(&mut part, &mut text, &mut words, &mut buffer, &mut out);
}
