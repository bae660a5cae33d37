// One case of the sheet check, of drawing, or of the search with the check of its sheet, answered on standard output. What is written no
// contract can say; the cases compare it.
use case_checks::Asked;
use draw::Drawing;
use layout::WORD_AT;
use memory::wide;
use refusals::{Reason, Refusal};
use search_outcomes::Verdict;
use sheet_checked::Checked;
use streams::STDOUT;

// What is asked of a case.
#[derive(Clone, Copy)]
pub enum Part {
    Check,
    Draw,
    Edits,
    Search,
    Whole,
}

// Writes the line of a refusal.
fn write_refusal(why: Reason, place: usize) {
    let mut out = [0u8; 64];
    let n = print_line::refusal_line(&mut out, why, place);
    io::write_all(STDOUT, texts::first(&out, n));
}

// Writes the line of the check.
fn write_check(r: Checked) {
    match r {
        Checked::Proved => {
            io::write_all(STDOUT, b"passes proved\n");
        }
        Checked::Refuted => {
            io::write_all(STDOUT, b"passes refuted\n");
        }
        Checked::Refused(why, place) => write_refusal(why, place),
    }
}

// Writes bytes in hex, and the end of the line.
fn write_hex(bytes: &[u8]) {
    for b in bytes {
        io::print_hex(STDOUT, wide(*b), 2);
    }
    io::write_all(STDOUT, b"\n");
}

// Writes the graph in hex, the line of a refusal, or `none`.
fn write_graph(r: Drawing, graph: &[u8]) {
    match r {
        Drawing::Graph(n) => {
            write_hex(texts::first(graph, n));
        }
        Drawing::TooLarge(_) => {
            io::write_all(STDOUT, b"none\n");
        }
        Drawing::Proved => {
            io::write_all(STDOUT, b"none\n");
        }
        Drawing::Short => {
            io::write_all(STDOUT, b"short\n");
        }
        Drawing::Refused(why, place) => write_refusal(why, place),
    }
}

// Writes the text of the graph, where there is one; the word stands in the sheet behind the verdict and its own header.
fn write_text(r: Drawing, query: &[u8], sheet: &[u8], graph: &[u8], out: &mut [u8]) {
    let Drawing::Graph(n) = r else {
        return;
    };
    if sheet.len() < WORD_AT {
        return;
    }
    let m = dot::dot(query, &sheet[WORD_AT..], texts::first(graph, n), out);
    io::write_all(STDOUT, texts::first(out, m));
}

// Writes the line of an outcome without its end.
fn write_outcome(r: Result<Verdict, Refusal>, buffer: &[u8], out: &mut [u8]) {
    let m = outcome_lines::outcome_line(r, buffer, out);
    if 0 < m {
        io::write_all(STDOUT, texts::first(out, m - 1));
    }
}

// Draws the graph of a sheet, in hex and as text.
fn draw_whole(
    r: Result<Verdict, Refusal>,
    query: &[u8],
    sheet: &[u8],
    graph: &mut [u8],
    out: &mut [u8],
) {
    let Ok(Verdict::Refuted(_, _)) = r else {
        return;
    };
    let d = draw::draw(query, sheet, graph);
    write_graph(d, graph);
    write_text(d, query, sheet, graph, out);
}

// The line of an outcome, and behind an answer that of the check of its sheet.
fn write_checked(
    r: Result<Verdict, Refusal>,
    query: &[u8],
    whole: bool,
    buffer: &[u8],
    graph: &mut [u8],
    out: &mut [u8],
) {
    write_outcome(r, buffer, out);
    if let Err(_) = r {
        io::write_all(STDOUT, b"\n");
        return;
    }
    let sheet = outcome_lines::sheet_of(r, buffer);
    io::write_all(STDOUT, b", ");
    write_check(sheet::check(query, sheet));
    if whole {
        draw_whole(r, query, sheet, graph, out);
    }
}

// A case with an allowance and a query.
pub fn searched(
    text: &[u8],
    whole: bool,
    words: &mut [u64],
    buffer: &mut [u8],
    graph: &mut [u8],
    out: &mut [u8],
) {
    let allowance = case_lines::number(text, text.len());
    let from = allowance.count + 1;
    if from <= text.len() {
        let query = &text[from..];
        let r = search::search_alone(query, allowance.value, words, buffer);
        write_checked(r, query, whole, buffer, graph, out);
    }
}

// A case with a sheet and a query.
pub fn sheet_case(text: &[u8], part: Part, buffer: &mut [u8], graph: &mut [u8]) {
    let h = case_lines::hex(text, buffer);
    let from = h.count;
    let n = h.bytes;
    if text.len() <= from {
        return;
    }
    let query = &text[from + 1..];
    match part {
        Part::Draw => {
            let d = draw::draw(query, texts::first(buffer, n), graph);
            write_graph(d, graph);
        }
        Part::Edits => case_checks::edits(Asked::Check, query, buffer, n),
        _ => write_check(sheet::check(query, texts::first(buffer, n))),
    }
}
