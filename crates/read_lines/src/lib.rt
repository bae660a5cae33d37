// The lines of a query, one at a time. (Document 01, "The query".) A line's codes are written before its end and its names are judged:
// a fault of the notation anywhere in the line comes before a slip of a name, and that before one declaration too many.
#![tactic(auto)]

ghost use Rattle.std.specs.Prelude.{eqb, ◌≡◌, ◌∷◌, ◌+◌, ◌-◌, ◌≤◌, length};
ghost use Rattle.claims.specs.Tokens as Notation;
ghost use Rattle.claims.specs.Tree.{Name};
ghost use Rattle.claims.specs.Lines.{choose, line_kinds};
ghost use Rattle.read_tokens.specs.Scan.{key_of, Spelled};
ghost use Rattle.read_bodies.specs.Bodies.{BodyOutcome};
ghost use Rattle.read_declarations.specs.State.{Small, KeepsNames, ReadsLine};
ghost use Rattle.read_names.specs.Keywords.{place_of};
ghost use Rattle.read_lines.specs.Kinds.{number_of, place_among, declares};
ghost use Rattle.read_declarations.specs.inner.Kinds.{KindOutcome, kind_place, reads_at, SortOf};

use read_declarations::LineState;
use read_names::{Keyword, Slip};
use read_tests::{Fault, Place};
use read_tokens::{Key, Token};
use refusals::Reason;

// The kinds of lines, by their first words.
#[derive(Clone, Copy)]
enum LineKind {
    Test,
    Rel,
    Let,
    Never,
    Within,
    Closed,
    Assume,
    Claim,
}

// All of them, in the document's order.
const LINE_KINDS: [LineKind; 8] = [
    LineKind::Test,
    LineKind::Rel,
    LineKind::Let,
    LineKind::Never,
    LineKind::Within,
    LineKind::Closed,
    LineKind::Assume,
    LineKind::Claim,
];

impl LineKind {
    // The word that a line of this kind begins with.
    fn word(self) -> Keyword
        ensures { place_of result ≡ number_of self }
    {
        match self {
            LineKind::Test => Keyword::Test,
            LineKind::Rel => Keyword::Rel,
            LineKind::Let => Keyword::Let,
            LineKind::Never => Keyword::Never,
            LineKind::Within => Keyword::Within,
            LineKind::Closed => Keyword::Closed,
            LineKind::Assume => Keyword::Assume,
            LineKind::Claim => Keyword::Claim,
        }
    }

    // The code of the names that a line of this kind declares.
    fn declares(self) -> Option<u64>
        ensures { result ≡ declares self }
    {
        match self {
            LineKind::Test => Some(codes::A_TEST),
            LineKind::Rel => Some(codes::A_RELATION),
            LineKind::Let => Some(codes::A_LET),
            _ => None,
        }
    }

    // Whether a line of this kind is the claim.
    fn is_claim(self) -> bool
        ensures { result ≡ eqb (number_of self) 7 }
    {
        match self {
            LineKind::Claim => true,
            _ => false,
        }
    }
}

// The kind of a line whose first word has the key k.
fn line_kind(k: Key) -> Option<LineKind>
    ensures { place_among result ≡ kind_place line_kinds k }
{
    LINE_KINDS
        .iter()
        .find(|kind| kind.word().key() == k)
        .copied()
}

// What stands behind the first word of a line of this kind, and its codes. The lines are `test N`, `rel N`, `let N = E`, `never T`, `within N [T] [U]`,
// `closed N`, `assume empty E`, `assume irreflexive E`, `claim include E in E`, `claim empty E` and `claim irreflexive E`.
fn body(
    s: &[u8],
    at: usize,
    kind: LineKind,
    names: &[u64],
    n: usize,
    used: usize,
    out: &mut [u64; 4096],
) -> Result<Place, Fault>
    requires { used + (length s.now - at) + 1 ≤ 4096 }
    ensures { BodyOutcome (reads_at line_kinds (number_of kind)) (SortOf (number_of kind) s.now at) s.now names.now n at used out.old out.new result }
{
    match kind {
        LineKind::Test => { read_bodies::declaration(s, at, names, n, used, codes::TEST_LINE, out) }
        LineKind::Rel => read_bodies::declaration(s, at, names, n, used, codes::REL_LINE, out),
        LineKind::Let => read_bodies::let_body(s, at, names, n, used, out),
        LineKind::Never => read_bodies::condition_then(
            s,
            names,
            n,
            Place {
                at,
                used,
                slip: Slip::Clean,
            },
            codes::NEVER_LINE,
            out,
        ),
        LineKind::Within => read_bodies::within_body(s, at, names, n, used, out),
        LineKind::Closed => read_bodies::closed_body(s, at, names, n, used, out),
        LineKind::Assume => read_bodies::one_side(
            s,
            at,
            names,
            n,
            used,
            codes::ASSUME_EMPTY,
            codes::ASSUME_IRREFLEXIVE,
            out,
        ),
        LineKind::Claim => read_bodies::claim_body(s, at, names, n, used, out),
    }
}

// The line that begins with a word of the key k, which ends at `at`.
fn kind_line(
    s: &[u8],
    at: usize,
    k: Key,
    ended: bool,
    st: LineState,
    names: &mut [u64; 192],
    out: &mut [u64; 4096],
) -> Result<LineState, Reason>
    requires { Small st × (st.used + (length s.now - at) + 1 ≤ 4096) }
    ensures { KeepsNames result names.old names.new × ((w : Name) → Spelled w → k ≡ key_of w → KindOutcome (λ ts. choose line_kinds (Notation.word w ∷ ts)) s.now at ended st names.old out.old result names.new out.new) }
{
    let Some(kind) = line_kind(k) else {
        let r = read_next::fail(out, Fault::Wrong);
        return read_declarations::plain(s, r, ended, st, false);
    };
    let r = body(s, at, kind, names, st.names, st.used, out);
    match kind.declares() {
        Some(code) => read_declarations::declare(s, at, r, ended, st, code, names),
        None => read_declarations::plain(s, r, ended, st, kind.is_claim()),
    }
}

// The line of the bytes `s`, after the lines that `st` is the state of. Where it is taken, its names are added to the table and its codes
// to the array. Where it is refused, no code is left, of this line or of those before it, and the table is as it was.
pub fn read_line(
    s: &[u8],
    ended: bool,
    st: LineState,
    names: &mut [u64; 192],
    out: &mut [u64; 4096],
) -> Result<LineState, Reason>
    requires { Small st × (st.used + length s.now ≤ 4096) }
    ensures { ReadsLine (record { bytes = s.now; ended = ended }) st names.old out.old result names.new out.new }
{
    if st.claimed {
        return read_next::fail(out, Reason::AfterClaim);
    }
    let t = read_tokens::token_at(s, 0);
    let Token::Word(k, at) = t else {
        return read_next::fail(out, Reason::Notation);
    };
    match kind_line(s, at, k, ended, st, names, out) {
        Ok(next) => Ok(next),
        Err(why) => read_next::fail(out, why),
    }
}
