// The reader of queries: every list of bytes gets an answer. (Document 01, "The query" and "Refusals with an example each".) It reads
// line by line over a state that carries what the lines so far declare, and writes the query's syntax as codes, children before parents.
#![tactic(auto)]

ghost use Rattle.std.specs.Prelude.{MatchOption, ◌≡◌, ◌+◌, ◌≤◌, length, take, drop};
ghost use Rattle.std.proofs.Math.Option.{some, none};
ghost use Rattle.claims.specs.Reading.{bad_line};
ghost use Rattle.read_tokens.specs.Scan.{front};
ghost use Rattle.read_text.specs.Reading.{in_lines, readable, SaysSummary, left_codes};
ghost use Rattle.read_text.specs.inner.Steps.{in_line, known, Written};

use memory::clear;
use read_declarations::LineState;
use refusals::{Reason, Refusal};

// What the reader knows of a query that it has read: how many codes, lines, tests and relations it has, and the last code, which tells the
// kind of its claim.
#[derive(Clone, Copy)]
pub struct Summary {
    pub codes: usize,
    pub lines: usize,
    pub tests: usize,
    pub relations: usize,
    pub kind: u64,
}

// The line of the first byte that is neither printable nor byte 10.
fn bad_line(text: &[u8]) -> Option<usize>
    ensures { MatchOption result (bad_line 1 text.now ≡ none) (λ n. bad_line 1 text.now ≡ some n) }
{
    let mut line = 1;
    for x in text {
        let b = *x;
        if b == b'\n' {
            line += 1;
        } else {
            if b < b' ' {
                return Some(line);
            }
            if b'~' < b {
                return Some(line);
            }
        }
    }
    None
}

// The position of the first byte 10 at or behind `at`, or the length.
fn line_end(text: &[u8], at: usize) -> usize
    requires { at ≤ length text.now }
    ensures { (result ≡ at + front in_line (drop at text.now)) × (result ≤ length text.now) }
{
    at + text[at..].iter().take_while(|b| **b != b'\n').count()
}

// What is known after so many lines, whose codes are the first of the array.
fn known_of(out: &[u64], st: LineState, lines: usize) -> Summary
    requires { st.used ≤ length out.now }
    ensures { result ≡ known st lines (take st.used out.now) }
{
    let n = st.used;
    let part = &out[..n];
    Summary {
        codes: n,
        lines,
        tests: st.tests,
        relations: st.relations,
        kind: codes::claim_kind(part),
    }
}

// The lines from the top. A line that is refused leaves no code.
fn every_line(
    text: &[u8],
    names: &mut [u64; 192],
    out: &mut [u64; 4096],
) -> Result<Summary, Refusal>
    requires { (length text.now ≤ 4096) × (length names.old ≡ 192) × (length out.old ≡ 4096) }
    ensures { SaysSummary (in_lines text.now) result × Written (in_lines text.now) out.old out.new }
{
    let mut st = LineState {
        used: 0,
        names: 0,
        tests: 0,
        relations: 0,
        lets: 0,
        claimed: false,
    };
    let mut number = 1;
    let mut at = 0;
    while at < text.len() {
        let e = line_end(text, at);
        let ended = e < text.len();
        st = read_lines::read_line(&text[at..e], ended, st, names, out).map_err(|why| Refusal {
            why,
            place: number,
        })?;
        number += 1;
        at = e + 1;
    }
    if !st.claimed {
        clear(out);
        return Err(Refusal {
            why: Reason::NoClaim,
            place: 0,
        });
    }
    Ok(known_of(out, st, number - 1))
}

// Refusals 1 and 2, and then the lines. `names` is lent for the table of names.
fn read_text(text: &[u8], names: &mut [u64; 192], out: &mut [u64; 4096]) -> Result<Summary, Refusal>
    requires { length names.old ≡ 192 }
    ensures { SaysSummary (readable text.now) result × (out.new ≡ left_codes (readable text.now)) }
{
    clear(out);
    if 4096 < text.len() {
        return Err(Refusal {
            why: Reason::TooLong,
            place: 0,
        });
    }
    if let Some(line) = bad_line(text) {
        return Err(Refusal {
            why: Reason::BadByte,
            place: line,
        });
    }
    every_line(text, names, out)
}

// The query that the text is, as codes in `out`, or the first refusal of 1 to 7.
pub fn read(text: &[u8], out: &mut [u64; 4096]) -> Result<Summary, Refusal>
    ensures { SaysSummary (readable text.now) result × (out.new ≡ left_codes (readable text.now)) }
{
    let mut names = [0u64; 192];
    read_text(text, &mut names, out)
}
