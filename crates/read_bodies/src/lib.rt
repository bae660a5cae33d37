// What stands behind the first word of a line, by the kind of line, and its codes. (Document 01, "The query".) After a fault no code is left.
#![tactic(auto)]

ghost use Rattle.std.specs.Prelude.{◌≡◌, Bool, true, false, ◌+◌, ◌-◌, ◌≤◌, length};
ghost use Rattle.claims.specs.Grammar.{name_next};
ghost use Rattle.claims.specs.Tree.{Name, Tree, Line, closed_line};
ghost use Rattle.claims.specs.Lines.{declared, mapped, choose, let_reader, within_reader, include_reader, claims};
ghost use Rattle.read_tests.specs.Places.{Room};
ghost use Rattle.read_bodies.specs.Bodies.{TestThen, BodyOutcome, Bare, Declaration, Declares, DeclaresLet, OneSided, one_side};
ghost use Rattle.read_bodies.specs.inner.Parts.{Fits, one_code, code_stored, TreeThen, Bracketed, LimitsThen};

use read_names::{Keyword, Slip};
use read_tests::{Fault, Place};
use read_tokens::Token;

// A name that is declared, and the line's code.
pub fn declaration(
    s: &[u8],
    at: usize,
    names: &[u64],
    n: usize,
    used: usize,
    code: u64,
    out: &mut [u64; 4096],
) -> Result<Place, Fault>
    requires { used + (length s.now - at) + 1 ≤ 4096 }
    ensures { (kind : Name → Line) → Declaration kind code → BodyOutcome (λ ts. mapped kind (declared ts)) (Declares kind s.now at) s.now names.now n at used out.old out.new result }
{
    let t = read_tokens::token_at(s, at);
    let Token::Word(k, next) = t else {
        return read_next::fail(out, Fault::Wrong);
    };
    let slip = read_names::declaration_slip(k, names, n);
    let end = read_next::write(out, used, 1, code);
    Ok(Place {
        at: next,
        used: end,
        slip,
    })
}

// A code behind what was read.
fn code_behind(r: Result<Place, Fault>, code: u64, out: &mut [u64; 4096]) -> Result<Place, Fault>
    requires { Fits r }
    ensures { (result ≡ one_code r) × (out.new ≡ code_stored code r out.old) }
{
    let g = r?;
    let used = read_next::write(out, g.used, 1, code);
    Ok(Place { used, ..g })
}

// A T, and a code behind it.
pub fn condition_then(
    s: &[u8],
    names: &[u64],
    n: usize,
    p: Place,
    code: u64,
    out: &mut [u64; 4096],
) -> Result<Place, Fault>
    requires { p.used + (length s.now - p.at) + 1 ≤ 4096 }
    ensures { TestThen code s.now names.now n p out.old out.new result }
{
    let r = read_tests::condition(s, names, n, p, out);
    code_behind(r, code, out)
}

// An E, and a code behind it.
fn expression_then(
    s: &[u8],
    names: &[u64],
    n: usize,
    p: Place,
    code: u64,
    out: &mut [u64; 4096],
) -> Result<Place, Fault>
    requires { p.used + (length s.now - p.at) + 1 ≤ 4096 }
    ensures { TreeThen code s.now names.now n p out.old out.new result }
{
    let r = read_exprs::expression(s, names, n, p, out);
    code_behind(r, code, out)
}

// A T in square brackets.
fn bracketed(
    s: &[u8],
    names: &[u64],
    n: usize,
    p: Place,
    out: &mut [u64; 4096],
) -> Result<Place, Fault>
    requires { Room s.now p }
    ensures { Bracketed s.now names.now n p out.old out.new result }
{
    let Some(next) = read_next::mark_next(s, p.at, b'[') else {
        return read_next::fail(out, Fault::Wrong);
    };
    let g = condition_then(s, names, n, Place { at: next, ..p }, codes::TESTED, out)?;
    let Some(end) = read_next::mark_next(s, g.at, b']') else {
        return read_next::fail(out, Fault::Wrong);
    };
    Ok(Place { at: end, ..g })
}

// `N = E`.
pub fn let_body(
    s: &[u8],
    at: usize,
    names: &[u64],
    n: usize,
    used: usize,
    out: &mut [u64; 4096],
) -> Result<Place, Fault>
    requires { used + (length s.now - at) + 1 ≤ 4096 }
    ensures { BodyOutcome let_reader (DeclaresLet s.now at) s.now names.now n at used out.old out.new result }
{
    let t = read_tokens::token_at(s, at);
    let Token::Word(k, next) = t else {
        return read_next::fail(out, Fault::Wrong);
    };
    let Some(start) = read_next::mark_next(s, next, b'=') else {
        return read_next::fail(out, Fault::Wrong);
    };
    let slip = read_names::declaration_slip(k, names, n);
    expression_then(
        s,
        names,
        n,
        Place {
            at: start,
            used,
            slip,
        },
        codes::LET_LINE,
        out,
    )
}

// Two bracketed T, and a code behind them.
fn limits(
    s: &[u8],
    names: &[u64],
    n: usize,
    p: Place,
    code: u64,
    out: &mut [u64; 4096],
) -> Result<Place, Fault>
    requires { p.used + (length s.now - p.at) + 1 ≤ 4096 }
    ensures { LimitsThen code s.now names.now n p out.old out.new result }
{
    let g = bracketed(s, names, n, p, out)?;
    let u = bracketed(s, names, n, g, out);
    code_behind(u, code, out)
}

// `N [T] [U]`.
pub fn within_body(
    s: &[u8],
    at: usize,
    names: &[u64],
    n: usize,
    used: usize,
    out: &mut [u64; 4096],
) -> Result<Place, Fault>
    requires { used + (length s.now - at) + 1 ≤ 4096 }
    ensures { BodyOutcome within_reader (Bare false) s.now names.now n at used out.old out.new result }
{
    let t = read_tokens::token_at(s, at);
    let Token::Word(k, next) = t else {
        return read_next::fail(out, Fault::Wrong);
    };
    if read_names::reserved(k) {
        return read_next::fail(out, Fault::Wrong);
    }
    let c = read_names::find(names, n, k);
    let p = Place {
        at: next,
        used,
        slip: read_names::slip_of(c, codes::A_RELATION, codes::A_LET),
    };
    limits(
        s,
        names,
        n,
        p,
        codes::WITHIN_LINE + read_names::relation_number(c),
        out,
    )
}

// `N`, a relation.
pub fn closed_body(
    s: &[u8],
    at: usize,
    names: &[u64],
    n: usize,
    used: usize,
    out: &mut [u64; 4096],
) -> Result<Place, Fault>
    requires { used + (length s.now - at) + 1 ≤ 4096 }
    ensures { BodyOutcome (λ ts. name_next closed_line ts) (Bare false) s.now names.now n at used out.old out.new result }
{
    let t = read_tokens::token_at(s, at);
    let Token::Word(k, next) = t else {
        return read_next::fail(out, Fault::Wrong);
    };
    if read_names::reserved(k) {
        return read_next::fail(out, Fault::Wrong);
    }
    let c = read_names::find(names, n, k);
    let end = read_next::write(
        out,
        used,
        1,
        codes::CLOSED_LINE + read_names::relation_number(c),
    );
    Ok(Place {
        at: next,
        used: end,
        slip: read_names::slip_of(c, codes::A_RELATION, codes::A_LET),
    })
}

// `empty E` or `irreflexive E`, with a code for each.
pub fn one_side(
    s: &[u8],
    at: usize,
    names: &[u64],
    n: usize,
    used: usize,
    empty: u64,
    irreflexive: u64,
    out: &mut [u64; 4096],
) -> Result<Place, Fault>
    requires { used + (length s.now - at) + 1 ≤ 4096 }
    ensures { (f g : Tree → Line) (c : Bool) → OneSided f empty c → OneSided g irreflexive c → BodyOutcome (choose (one_side f g)) (Bare c) s.now names.now n at used out.old out.new result }
{
    if let Some(e) = read_next::word_next(s, at, Keyword::Empty.key()) {
        return expression_then(
            s,
            names,
            n,
            Place {
                at: e,
                used,
                slip: Slip::Clean,
            },
            empty,
            out,
        );
    }
    if let Some(i) = read_next::word_next(s, at, Keyword::Irreflexive.key()) {
        return expression_then(
            s,
            names,
            n,
            Place {
                at: i,
                used,
                slip: Slip::Clean,
            },
            irreflexive,
            out,
        );
    }
    read_next::fail(out, Fault::Wrong)
}

// `E in E`.
fn two_sides(
    s: &[u8],
    at: usize,
    names: &[u64],
    n: usize,
    used: usize,
    out: &mut [u64; 4096],
) -> Result<Place, Fault>
    requires { used + (length s.now - at) + 1 ≤ 4096 }
    ensures { BodyOutcome include_reader (Bare true) s.now names.now n at used out.old out.new result }
{
    let g = expression_then(
        s,
        names,
        n,
        Place {
            at,
            used,
            slip: Slip::Clean,
        },
        codes::INCLUDED,
        out,
    )?;
    let Some(next) = read_next::word_next(s, g.at, Keyword::In.key()) else {
        return read_next::fail(out, Fault::Wrong);
    };
    expression_then(
        s,
        names,
        n,
        Place { at: next, ..g },
        codes::CLAIM_INCLUDE,
        out,
    )
}

// `include E in E`, `empty E` or `irreflexive E`.
pub fn claim_body(
    s: &[u8],
    at: usize,
    names: &[u64],
    n: usize,
    used: usize,
    out: &mut [u64; 4096],
) -> Result<Place, Fault>
    requires { used + (length s.now - at) + 1 ≤ 4096 }
    ensures { BodyOutcome (choose claims) (Bare true) s.now names.now n at used out.old out.new result }
{
    if let Some(i) = read_next::word_next(s, at, Keyword::Include.key()) {
        return two_sides(s, i, names, n, used, out);
    }
    one_side(
        s,
        at,
        names,
        n,
        used,
        codes::CLAIM_EMPTY,
        codes::CLAIM_IRREFLEXIVE,
        out,
    )
}
