// The line of the judgement of a graph, from the bytes of the query and of the graph, and what it means in words, as bytes in lent memory.
// (Document 01, "Sheet and graph bytes", last paragraph.) Whatever does not fit is not written; for memory that is long enough the whole line
// stands there.
#![tactic(auto)]

ghost use Rattle.std.specs.Prelude.{◌+◌, [], ◌∷◌, ◌++◌, ◌≡◌};
ghost use Rattle.claims.specs.Bytes.{text as quoted};
ghost use Rattle.claims.specs.Printed.{decimal};
ghost use Rattle.texts.specs.Lines.{line_at};
ghost use Rattle.print_line.specs.Puts.{Puts};
ghost use Rattle.graph.specs.Answers.{result_of};
ghost use Rattle.claims.specs.Calls.{judge_call};
ghost use Rattle.judge_line.specs.JudgementLine.{judgement_line};
ghost use Rattle.judge_line.specs.JudgedWords.{line_ends, not_held, broken_words, judged_words};

use graph::Judged;
use refusals::Refusal;

// `line` and its number.
fn put_line(out: &mut [u8], line: usize) -> usize
    ensures { Puts out.old 0 (quoted "line " ++ decimal line) result out.new }
{
    let a = print_line::put_text(out, 0, b"line ");
    print_line::put_decimal(out, a, line as u64)
}

// A judgement whose claim holds.
fn holds_line(out: &mut [u8], line: usize) -> usize
    ensures { Puts out.old 0 ((quoted "line " ++ decimal line) ++ (quoted " holds" ++ (10 ∷ []))) result out.new }
{
    let a = put_line(out, line);
    let b = print_line::put_text(out, a, b" holds");
    print_line::put_byte(out, b, b'\n')
}

// A judgement whose claim breaks at an event.
fn event_line(out: &mut [u8], line: usize, event: usize) -> usize
    ensures { Puts out.old 0 ((quoted "line " ++ decimal line) ++ (quoted " breaks " ++ (decimal event ++ (10 ∷ [])))) result out.new }
{
    let a = put_line(out, line);
    let b = print_line::put_text(out, a, b" breaks ");
    let c = print_line::put_decimal(out, b, event as u64);
    print_line::put_byte(out, c, b'\n')
}

// A judgement whose claim breaks at a pair of events.
fn pair_line(out: &mut [u8], line: usize, from: usize, to: usize) -> usize
    ensures { Puts out.old 0
        ((quoted "line " ++ decimal line) ++ (quoted " breaks " ++ (decimal from ++ (32 ∷ (decimal to ++ (10 ∷ []))))))
        result out.new }
{
    let a = put_line(out, line);
    let b = print_line::put_text(out, a, b" breaks ");
    let c = print_line::put_decimal(out, b, from as u64);
    let d = print_line::put_byte(out, c, b' ');
    let e = print_line::put_decimal(out, d, to as u64);
    print_line::put_byte(out, e, b'\n')
}

// The line of a judgement or a refusal.
pub fn line(j: Result<Judged, Refusal>, out: &mut [u8]) -> usize
    ensures { Puts out.old 0 (judgement_line (result_of j)) result out.new }
{
    match j {
        Ok(Judged::Holds(line)) => holds_line(out, line),
        Ok(Judged::BreaksAt(line, event)) => event_line(out, line, event),
        Ok(Judged::BreaksFrom(line, from, to)) => pair_line(out, line, from, to),
        Err(e) => print_line::refusal_line(out, e.why, e.place),
    }
}

// How many lines of a text are ended by byte 10.
fn line_ends(text: &[u8]) -> usize
    ensures { result ≡ line_ends text.now }
{
    let mut n: usize = 0;
    for b in text {
        if *b == 10 {
            n += 1;
        }
    }
    n
}

// A line of the query that does not hold, as it is written.
fn line_words(out: &mut [u8], line: usize, text: &[u8]) -> usize
    ensures { Puts out.old 0 (quoted "fence: line " ++ (decimal line ++ (not_held ++ (line_at line text.now ++ (10 ∷ []))))) result out.new }
{
    let a = print_line::put_text(out, 0, b"fence: line ");
    let b = print_line::put_decimal(out, a, line as u64);
    let c = print_line::put_text(out, b, b" of the query does not hold in this graph: ");
    let d = print_line::put_text(out, c, texts::line(text, line));
    print_line::put_byte(out, d, b'\n')
}

// The first line that does not hold; where there is none, the claim, the last line, where that does not hold.
fn broken_words(out: &mut [u8], line: usize, holds: bool, text: &[u8]) -> usize
    ensures { Puts out.old 0 (broken_words line holds text.now) result out.new }
{
    if 0 < line {
        return line_words(out, line, text);
    }
    if holds {
        return 0;
    }
    line_words(out, line_ends(text), text)
}

// What a judgement of a graph for the query that the text is means: which line does not hold; or what a refusal means.
pub fn words(j: Result<Judged, Refusal>, text: &[u8], out: &mut [u8]) -> usize
    ensures { Puts out.old 0 (judged_words j text.now) result out.new }
{
    match j {
        Ok(Judged::Holds(line)) => broken_words(out, line, true, text),
        Ok(Judged::BreaksAt(line, _event)) => broken_words(out, line, false, text),
        Ok(Judged::BreaksFrom(line, _from, _to)) => broken_words(out, line, false, text),
        Err(e) => refusal_texts::refusal(out, e.why, e.place, text),
    }
}

// A line in memory: how many bytes it has, and the judgement or the refusal that it shows.
#[derive(Clone, Copy)]
pub struct JudgedLine {
    pub bytes: usize,
    pub judged: Result<Judged, Refusal>,
}

// The line of the judgement of a graph for the query that the text is, as far as it fits, and the judgement.
pub fn judged_line(text: &[u8], graph: &[u8], out: &mut [u8]) -> JudgedLine
    ensures { Puts out.old 0 (judgement_line (judge_call text.now graph.now)) result.bytes out.new
        × (result_of result.judged ≡ judge_call text.now graph.now) }
{
    let j = graph::judge(text, graph);
    let n = line(j, out);
    JudgedLine {
        bytes: n,
        judged: j,
    }
}
