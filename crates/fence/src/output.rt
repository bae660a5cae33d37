// What the program writes: on standard output the line of document 01 ("The desk's cases") or the bytes, and on standard error, beside a
// refusal, what it means. What is written no contract can say; the lines and texts are said by the crates that make them.
ghost use Rattle.std.specs.Prelude.{◌≤◌, length};
ghost use Rattle.outcome_lines.specs.Shown.{longest_line};

use draw::Drawing;
use layout::{PROGRAM_ALLOWANCE, WORD_AT};
use refusals::{Reason, Refusal};
use search_outcomes::Verdict;
use sheet_checked::Checked;
use streams::{STDERR, STDOUT};

// Writes the first n bytes of the memory.
pub fn write(fd: i32, out: &[u8], n: usize) {
    io::write_all(fd, texts::first(out, n));
}

// Says on standard error what a refusal means.
fn explain(why: Reason, place: usize, text: &[u8], out: &mut [u8]) {
    let n = refusal_texts::refusal(out, why, place, text);
    write(STDERR, out, n);
}

// Writes the line of a refusal, and what it means.
fn refuse(why: Reason, place: usize, text: &[u8], out: &mut [u8]) {
    let n = print_line::refusal_line(out, why, place);
    write(STDOUT, out, n);
    explain(why, place, text, out);
}

// Writes the line of an outcome.
fn show(r: Result<Verdict, Refusal>, text: &[u8], buffer: &[u8], out: &mut [u8]) {
    let n = outcome_lines::outcome_line(r, buffer, out);
    write(STDOUT, out, n);
    if let Err(e) = r {
        explain(e.why, e.place, text, out);
    }
}

// Writes the sheet of an outcome, which stands in the buffer, or the line of a refusal.
pub fn show_sheet(r: Result<Verdict, Refusal>, text: &[u8], buffer: &[u8], out: &mut [u8]) {
    if let Err(e) = r {
        refuse(e.why, e.place, text, out);
        return;
    }
    io::write_all(STDOUT, outcome_lines::sheet_of(r, buffer));
}

// The line of the sheet check.
pub fn show_check(r: Checked, text: &[u8], out: &mut [u8]) {
    match r {
        Checked::Proved => {
            io::write_all(STDOUT, b"passes proved\n");
        }
        Checked::Refuted => {
            io::write_all(STDOUT, b"passes refuted\n");
        }
        Checked::Refused(why, place) => refuse(why, place, text, out),
    }
}

// Writes the graph that a passing refuted sheet draws, as bytes or as text; its word stands behind the verdict and the header of its field.
pub fn show_graph(
    r: Drawing,
    as_text: bool,
    text: &[u8],
    sheet: &[u8],
    graph: &[u8],
    out: &mut [u8],
) {
    match r {
        Drawing::Graph(n) => {
            if !as_text {
                write(STDOUT, graph, n);
                return;
            }
            if WORD_AT <= sheet.len() {
                let m = dot::dot(text, &sheet[WORD_AT..], texts::first(graph, n), out);
                write(STDOUT, out, m);
            }
        }
        Drawing::TooLarge(n) => {
            io::write_all(STDERR, b"fence: the drawn graph has ");
            io::print_decimal(STDERR, n as u64);
            io::write_all(STDERR, b" events; graph bytes have at most 64\n");
        }
        Drawing::Proved => {
            io::write_all(
                STDERR,
                b"fence: the sheet passes and says proved: there is no counterexample to draw\n",
            );
        }
        Drawing::Short => {
            io::write_all(STDERR, b"fence: there is no room for the graph\n");
        }
        Drawing::Refused(why, place) => refuse(why, place, text, out),
    }
}

// The verdict of the query that the text is. At the query program's allowance the line is proved to be its line. The memory is required to hold
// the longest line, so that no line is cut.
pub fn query(text: &[u8], allowance: usize, words: &mut [u64], buffer: &mut [u8], out: &mut [u8])
    requires { longest_line ≤ length out.old }
{
    if allowance != PROGRAM_ALLOWANCE {
        let r = search::search_alone(text, allowance, words, buffer);
        show(r, text, buffer, out);
        return;
    }
    let said = fence_line::line(text, out);
    write(STDOUT, out, said.bytes);
    let r = said.outcome;
    if let Err(e) = r {
        explain(e.why, e.place, text, out);
    }
}
