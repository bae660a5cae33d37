// Readers of T over the bytes of a line: `|`, then `&`, then prefix `!`, over names, `true`, `false` and round brackets. (Document 01, "The
// query".) They find what the grammar finds in the line's tokens, and write the codes of the tree. A name is looked up at once; a slip of
// one is only remembered, since a fault of the notation further on in the line comes first. Operators and prefix `!` are read by loops,
// so that only brackets take the machine's stack. At each bracket two numbers fall: how many may still be opened, and the bytes left. The
// place of a reader serves the readers of E too.
#![tactic(auto)]

ghost use Rattle.std.specs.Prelude.{◌≤◌};
ghost use Rattle.claims.specs.Lines.{condition};
ghost use Rattle.read_tests.specs.Places.{Room, TestOutcome, Is, Finds, opened};
ghost use Rattle.claims.specs.Grammar.{test_union, test_meet, test_not, test_basic, test_word};

use read_names::{Keyword, Slip};
use read_tokens::Token;

// How many round brackets may be open at once.
pub const MOST_BRACKETS: usize = 32;

// How far a reader has come: its position in the line, the codes written so far, and the first slip of a name.
#[derive(Clone, Copy)]
pub struct Place {
    pub at: usize,
    pub used: usize,
    pub slip: Slip,
}

// Why a reader finds no tree: a token with which the notation does not go on, or a 33rd open bracket. A reader answers the place behind the
// tree whose codes it has written, or the fault; and then no code is left, of this tree or of what was read before it.
#[derive(Clone, Copy)]
pub enum Fault {
    Wrong,
    Deep,
}

// T, where `depth` more brackets may be opened.
#[cycle(basic_meet_not_union)]
pub fn union(
    s: &[u8],
    names: &[u64],
    n: usize,
    depth: usize,
    p: Place,
    out: &mut [u64; 4096],
) -> Result<Place, Fault>
    requires { (depth ≤ 32) × Room s.now p }
    ensures { TestOutcome (Finds test_union (opened depth) 4) s.now names.now n p out.old out.new result }
{
    let mut place = p;
    let mut more = 0;
    loop {
        let got = meet(s, names, n, depth, place, out)?;
        let used = read_next::write(out, got.used, more, codes::OR);
        let Some(next) = read_next::mark_next(s, got.at, b'|') else {
            return Ok(Place { used, ..got });
        };
        place = Place {
            at: next,
            used,
            ..got
        };
        more = 1;
    }
}

// T without a `|` outside brackets.
#[cycle(basic_meet_not_union)]
fn meet(
    s: &[u8],
    names: &[u64],
    n: usize,
    depth: usize,
    p: Place,
    out: &mut [u64; 4096],
) -> Result<Place, Fault>
    requires { (depth ≤ 32) × Room s.now p }
    ensures { TestOutcome (Finds test_meet (opened depth) 3) s.now names.now n p out.old out.new result }
{
    let mut place = p;
    let mut more = 0;
    loop {
        let got = not(s, names, n, depth, place, out)?;
        let used = read_next::write(out, got.used, more, codes::AND);
        let Some(next) = read_next::mark_next(s, got.at, b'&') else {
            return Ok(Place { used, ..got });
        };
        place = Place {
            at: next,
            used,
            ..got
        };
        more = 1;
    }
}

// T without a `|` or `&` outside brackets.
#[cycle(basic_meet_not_union)]
fn not(
    s: &[u8],
    names: &[u64],
    n: usize,
    depth: usize,
    p: Place,
    out: &mut [u64; 4096],
) -> Result<Place, Fault>
    requires { (depth ≤ 32) × Room s.now p }
    ensures { TestOutcome (Finds test_not (opened depth) 2) s.now names.now n p out.old out.new result }
{
    let run = read_next::marks_next(s, p.at, b'!');
    let inner = Place { at: run.at, ..p };
    let got = basic(s, names, n, depth, inner, out)?;
    let used = read_next::write(out, got.used, run.count, codes::NOT);
    Ok(Place { used, ..got })
}

// A name, `true`, `false`, or a T in round brackets.
#[cycle(basic_meet_not_union)]
fn basic(
    s: &[u8],
    names: &[u64],
    n: usize,
    depth: usize,
    p: Place,
    out: &mut [u64; 4096],
) -> Result<Place, Fault>
    requires { (depth ≤ 32) × Room s.now p }
    ensures { TestOutcome (Finds test_basic (opened depth) 1) s.now names.now n p out.old out.new result }
{
    let Some(next) = read_next::mark_next(s, p.at, b'(') else {
        return word(s, names, n, p, out);
    };
    if depth == 0 {
        return read_next::fail(out, Fault::Deep);
    }
    let inner = Place { at: next, ..p };
    let got = union(s, names, n, depth - 1, inner, out)?;
    let Some(end) = read_next::mark_next(s, got.at, b')') else {
        return read_next::fail(out, Fault::Wrong);
    };
    Ok(Place { at: end, ..got })
}

// A name, `true` or `false`.
fn word(s: &[u8], names: &[u64], n: usize, p: Place, out: &mut [u64; 4096]) -> Result<Place, Fault>
    requires { Room s.now p }
    ensures { TestOutcome (Is test_word) s.now names.now n p out.old out.new result }
{
    let used = p.used;
    let t = read_tokens::token_at(s, p.at);
    let Token::Word(k, next) = t else {
        return read_next::fail(out, Fault::Wrong);
    };
    if Keyword::True.key() == k {
        out[used] = codes::TRUE;
        return Ok(Place {
            at: next,
            used: used + 1,
            ..p
        });
    }
    if Keyword::False.key() == k {
        out[used] = codes::FALSE;
        return Ok(Place {
            at: next,
            used: used + 1,
            ..p
        });
    }
    if read_names::reserved(k) {
        return read_next::fail(out, Fault::Wrong);
    }
    let code = read_names::find(names, n, k);
    out[used] = code;
    Ok(Place {
        at: next,
        used: used + 1,
        slip: read_names::first_slip(
            p.slip,
            read_names::slip_of(code, codes::A_TEST, codes::A_RELATION),
        ),
    })
}

// A T from the place p on, with no open bracket. What is required of the room in `out` is no limit of its own: a code takes a byte of
// the line at least, a query has at most 4,096, and what is ensured keeps the room for the rest of the line.
pub fn condition(
    s: &[u8],
    names: &[u64],
    n: usize,
    p: Place,
    out: &mut [u64; 4096],
) -> Result<Place, Fault>
    requires { Room s.now p }
    ensures { TestOutcome (Is condition) s.now names.now n p out.old out.new result }
{
    union(s, names, n, MOST_BRACKETS, p, out)
}
