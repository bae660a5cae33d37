// Readers of E over the bytes of a line: a union `|` of sequences `;` of factors with any number of postfix `*`, `+`, `?`. (Document 01, "The
// query".) They call each other for what stands in round brackets, and the readers of T for what stands in square ones. Operators and
// postfixes are read by loops, so that only brackets take the machine's stack. At each round bracket two numbers fall: how many may still be
// opened, and the bytes left.
#![tactic(auto)]

ghost use Rattle.std.specs.Prelude.{None, ◌≡◌, ◌≤◌};
ghost use Rattle.claims.specs.Lines.{expression};
ghost use Rattle.read_next.specs.Next.{mark_next};
ghost use Rattle.read_tests.specs.Places.{Room, TreeOutcome, Is, Finds, opened};
ghost use Rattle.claims.specs.Grammar.{union_of, sequence_of, postfix_of, factor_of, name_next};
ghost use Rattle.claims.specs.Tree.{name};
ghost use Rattle.read_exprs.specs.inner.Postfix.{SignNext, PostfixesNext};

use read_tests::{Fault, Place};
use read_tokens::Token;

// A postfix: its code, and the position behind it.
#[derive(Clone, Copy)]
struct Sign {
    at: usize,
    code: u64,
}

// E, where `depth` more round brackets may be opened.
#[cycle(factor_postfix_sequence_union)]
fn union(
    s: &[u8],
    names: &[u64],
    n: usize,
    depth: usize,
    p: Place,
    out: &mut [u64; 4096],
) -> Result<Place, Fault>
    requires { (depth ≤ 32) × Room s.now p }
    ensures { TreeOutcome (Finds union_of (opened depth) 4) s.now names.now n p out.old out.new result }
{
    let mut place = p;
    let mut more = 0;
    loop {
        let got = sequence(s, names, n, depth, place, out)?;
        let used = read_next::write(out, got.used, more, codes::UNION);
        let Some(next) = read_next::mark_next(s, got.at, b'|') else {
            return Ok(Place { used, ..got });
        };
        place = Place {
            at: next,
            used,
            ..got
        };
        more = 1;
    }
}

// E without a `|` outside brackets.
#[cycle(factor_postfix_sequence_union)]
fn sequence(
    s: &[u8],
    names: &[u64],
    n: usize,
    depth: usize,
    p: Place,
    out: &mut [u64; 4096],
) -> Result<Place, Fault>
    requires { (depth ≤ 32) × Room s.now p }
    ensures { TreeOutcome (Finds sequence_of (opened depth) 3) s.now names.now n p out.old out.new result }
{
    let mut place = p;
    let mut more = 0;
    loop {
        let got = postfix(s, names, n, depth, place, out)?;
        let used = read_next::write(out, got.used, more, codes::SEQUENCE);
        let Some(next) = read_next::mark_next(s, got.at, b';') else {
            return Ok(Place { used, ..got });
        };
        place = Place {
            at: next,
            used,
            ..got
        };
        more = 1;
    }
}

// A factor with its postfixes.
#[cycle(factor_postfix_sequence_union)]
fn postfix(
    s: &[u8],
    names: &[u64],
    n: usize,
    depth: usize,
    p: Place,
    out: &mut [u64; 4096],
) -> Result<Place, Fault>
    requires { (depth ≤ 32) × Room s.now p }
    ensures { TreeOutcome (Finds postfix_of (opened depth) 2) s.now names.now n p out.old out.new result }
{
    let got = factor(s, names, n, depth, p, out)?;
    Ok(postfixes(s, got, out))
}

// A name, a T in square brackets, or an E in round ones.
#[cycle(factor_postfix_sequence_union)]
fn factor(
    s: &[u8],
    names: &[u64],
    n: usize,
    depth: usize,
    p: Place,
    out: &mut [u64; 4096],
) -> Result<Place, Fault>
    requires { (depth ≤ 32) × Room s.now p }
    ensures { TreeOutcome (Finds factor_of (opened depth) 1) s.now names.now n p out.old out.new result }
{
    let Some(next) = read_next::mark_next(s, p.at, b'(') else {
        return leaf(s, names, n, depth, p, out);
    };
    if depth == 0 {
        return read_next::fail(out, Fault::Deep);
    }
    let inner = Place { at: next, ..p };
    let got = union(s, names, n, depth - 1, inner, out)?;
    let Some(end) = read_next::mark_next(s, got.at, b')') else {
        return read_next::fail(out, Fault::Wrong);
    };
    Ok(Place { at: end, ..got })
}

// A factor that no round bracket begins: a name, or a T in square brackets.
fn leaf(
    s: &[u8],
    names: &[u64],
    n: usize,
    depth: usize,
    p: Place,
    out: &mut [u64; 4096],
) -> Result<Place, Fault>
    requires depth_bound { (depth ≤ 32) × Room s.now p }
    requires at_value { mark_next s.now p.at 40 ≡ None }
    ensures { TreeOutcome (Finds factor_of (opened depth) 1) s.now names.now n p out.old out.new result }
{
    let Some(next) = read_next::mark_next(s, p.at, b'[') else {
        return named(s, names, n, p, out);
    };
    let inner = Place { at: next, ..p };
    let got = read_tests::union(s, names, n, depth, inner, out)?;
    let Some(end) = read_next::mark_next(s, got.at, b']') else {
        return read_next::fail(out, Fault::Wrong);
    };
    let used = read_next::write(out, got.used, 1, codes::TESTED);
    Ok(Place {
        at: end,
        used,
        ..got
    })
}

// The name of a relation or a let.
fn named(s: &[u8], names: &[u64], n: usize, p: Place, out: &mut [u64; 4096]) -> Result<Place, Fault>
    requires { Room s.now p }
    ensures { TreeOutcome (Is (name_next name)) s.now names.now n p out.old out.new result }
{
    let used = p.used;
    let t = read_tokens::token_at(s, p.at);
    let Token::Word(k, next) = t else {
        return read_next::fail(out, Fault::Wrong);
    };
    if read_names::reserved(k) {
        return read_next::fail(out, Fault::Wrong);
    }
    let code = read_names::find(names, n, k);
    out[used] = code;
    Ok(Place {
        at: next,
        used: used + 1,
        slip: read_names::first_slip(
            p.slip,
            read_names::slip_of(code, codes::A_RELATION, codes::LINE),
        ),
    })
}

// The postfix that stands next.
fn sign_next(s: &[u8], at: usize) -> Option<Sign>
    ensures { SignNext s.now at result }
{
    if let Some(star) = read_next::mark_next(s, at, b'*') {
        return Some(Sign {
            at: star,
            code: codes::STAR,
        });
    }
    if let Some(plus) = read_next::mark_next(s, at, b'+') {
        return Some(Sign {
            at: plus,
            code: codes::PLUS,
        });
    }
    if let Some(opt) = read_next::mark_next(s, at, b'?') {
        return Some(Sign {
            at: opt,
            code: codes::OPTIONAL,
        });
    }
    None
}

// All postfixes that stand next.
fn postfixes(s: &[u8], p: Place, out: &mut [u64; 4096]) -> Place
    requires { Room s.now p }
    ensures { PostfixesNext s.now p out.old out.new result }
{
    let mut at = p.at;
    let mut used = p.used;
    while let Some(sign) = sign_next(s, at) {
        out[used] = sign.code;
        at = sign.at;
        used += 1;
    }
    Place { at, used, ..p }
}

// An E from the place p on, with no open bracket. What is required of the room in `out` is no limit of its own: a code takes a byte of the
// line at least, and a query has at most 4,096.
pub fn expression(
    s: &[u8],
    names: &[u64],
    n: usize,
    p: Place,
    out: &mut [u64; 4096],
) -> Result<Place, Fault>
    requires { Room s.now p }
    ensures { TreeOutcome (Is expression) s.now names.now n p out.old out.new result }
{
    union(s, names, n, read_tests::MOST_BRACKETS, p, out)
}
