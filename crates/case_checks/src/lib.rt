// Answers of the sheet check and of the judge to bytes that are cut anywhere or have another byte somewhere, on standard output, equal ones in a
// row counted. What is written no contract can say, and the cases compare it; the bytes are left as they were.
#![tactic(auto)]

ghost use Rattle.std.specs.Prelude.{◌≡◌};

use graph::Judged;
use refusals::Refusal;
use sheet_checked::Checked;
use streams::STDOUT;

// Whose answers they are: the bytes are a sheet or a graph.
#[derive(Clone, Copy)]
pub enum Asked {
    Check,
    Judge,
}

// What the check or the judge answers; a refusal has its number and its place.
#[derive(Clone, Copy, PartialEq, Eq)]
enum Answer {
    PassesProved,
    PassesRefuted,
    Judged(Judged),
    Refused(u64, usize),
}

// An answer of the check.
fn of_check(r: Checked) -> Answer {
    match r {
        Checked::Proved => Answer::PassesProved,
        Checked::Refuted => Answer::PassesRefuted,
        Checked::Refused(why, place) => Answer::Refused(refusals::number(why), place),
    }
}

// An answer of the judge.
fn of_judge(r: Result<Judged, Refusal>) -> Answer {
    match r {
        Ok(j) => Answer::Judged(j),
        Err(e) => Answer::Refused(refusals::number(e.why), e.place),
    }
}

// The answer to a query and the bytes of a sheet or a graph.
fn answer_of(of: Asked, query: &[u8], bytes: &[u8]) -> Answer {
    match of {
        Asked::Check => of_check(sheet::check(query, bytes)),
        Asked::Judge => of_judge(graph::judge(query, bytes)),
    }
}

// Writes the line that a judgement names, and whether the claim holds.
fn write_line(line: usize, claim: &[u8]) {
    io::write_all(STDOUT, b"line ");
    io::print_decimal(STDOUT, line as u64);
    io::write_all(STDOUT, claim);
}

// Writes a judgement.
fn write_judged(j: Judged) {
    match j {
        Judged::Holds(line) => write_line(line, b" holds"),
        Judged::BreaksAt(line, event) => {
            write_line(line, b" breaks ");
            io::print_decimal(STDOUT, event as u64);
        }
        Judged::BreaksFrom(line, from, to) => {
            write_line(line, b" breaks ");
            io::print_decimal(STDOUT, from as u64);
            io::write_all(STDOUT, b" ");
            io::print_decimal(STDOUT, to as u64);
        }
    }
}

// Writes an answer, without the end of a line.
fn write_answer(a: Answer) {
    match a {
        Answer::PassesProved => {
            io::write_all(STDOUT, b"passes proved");
        }
        Answer::PassesRefuted => {
            io::write_all(STDOUT, b"passes refuted");
        }
        Answer::Judged(j) => write_judged(j),
        Answer::Refused(number, place) => {
            io::write_all(STDOUT, b"refusal ");
            io::print_decimal(STDOUT, number);
            io::write_all(STDOUT, b" line ");
            io::print_decimal(STDOUT, place as u64);
        }
    }
}

// Equal answers in a row: how many, and which.
#[derive(Clone, Copy)]
struct Run {
    count: u64,
    answer: Answer,
}

// Writes the answers of a row.
fn write_run(r: Run) {
    io::print_decimal(STDOUT, r.count);
    io::write_all(STDOUT, b" ");
    write_answer(r.answer);
}

// One more answer; a row that it ends is written.
fn more(so_far: Option<Run>, answer: Answer) -> Run {
    let Some(r) = so_far else {
        return Run { count: 1, answer };
    };
    if r.answer == answer && r.count < 1048576 {
        return Run {
            count: r.count + 1,
            answer,
        };
    }
    write_run(r);
    io::write_all(STDOUT, b", ");
    Run { count: 1, answer }
}

// The answers to the bytes cut at every place, and whole.
fn cuts(of: Asked, query: &[u8], bytes: &[u8]) {
    let mut r = None;
    for i in 0..bytes.len() {
        r = Some(more(r, answer_of(of, query, &bytes[..i])));
    }
    write_run(more(r, answer_of(of, query, bytes)));
    io::write_all(STDOUT, b"\n");
}

// The answer to the first n bytes of the buffer with another byte at a place; the byte that was there is put back. A place behind the buffer has
// no byte, and nothing is asked.
fn changed(of: Asked, query: &[u8], buffer: &mut [u8], n: usize, at: usize, b: u8) -> Answer
    ensures { buffer.new ≡ buffer.old }
{
    if buffer.len() <= at {
        return Answer::PassesProved;
    }
    let old = buffer[at];
    buffer[at] = b;
    let c = answer_of(of, query, texts::first(buffer, n));
    buffer[at] = old;
    c
}

// The answers to them with every byte at a place.
fn changes(of: Asked, query: &[u8], buffer: &mut [u8], n: usize, at: usize)
    ensures { buffer.new ≡ buffer.old }
{
    let mut r = None;
    for b in 0..255 {
        r = Some(more(r, changed(of, query, buffer, n, at, b)));
    }
    write_run(more(r, changed(of, query, buffer, n, at, 255)));
    io::write_all(STDOUT, b"\n");
}

// Writes the answers to all edits of a sheet or a graph, the first n bytes of the buffer: a line for the cuts, and one for each place. The buffer is
// in the end as it was.
pub fn edits(of: Asked, query: &[u8], buffer: &mut [u8], n: usize)
    ensures { buffer.new ≡ buffer.old }
{
    cuts(of, query, texts::first(buffer, n));
    for i in 0..n {
        changes(of, query, buffer, n, i);
    }
}
