// The state between two lines, the end of a line and its fate, and lines that declare a name. (Document 01, "The query".) A fault of the
// notation anywhere in the line comes before a slip of a name, and that before one declaration too many.
#![tactic(auto)]

ghost use Rattle.std.specs.Prelude.{◌≡◌, ◌&&◌, ◌+◌, ◌-◌, ◌≤◌, drop};
ghost use Rattle.claims.specs.Tokens as Notation;
ghost use Rattle.claims.specs.Tokens.{tokens};
ghost use Rattle.claims.specs.Lines.{at_end};
ghost use Rattle.codes.specs.Codes.{A-LET, MOST-LETS};
ghost use Rattle.read_tokens.specs.Scan.{token_at};
ghost use Rattle.read_bodies.specs.Bodies.{word_of};
ghost use Rattle.read_declarations.specs.State.{Small};
ghost use Rattle.read_declarations.specs.inner.Declaring.{count_of, most_of, one_if, one_more, declared_read, declared_names};
ghost use Rattle.read_declarations.specs.inner.Kinds.{by_slip, checked, plain_read};

use read_names::Slip;
use read_tests::{Fault, Place};
use read_tokens::{Key, Token};
use refusals::Reason;

// What the lines read so far declare, and how many codes they have.
#[derive(Clone, Copy)]
pub struct LineState {
    pub used: usize,
    pub names: usize,
    pub tests: usize,
    pub relations: usize,
    pub lets: usize,
    pub claimed: bool,
}

// No token is left, and byte 10 ends the line.
fn ends(s: &[u8], at: usize, ended: bool) -> bool
    ensures { result ≡ (at_end (tokens (drop at s.now)) && ended) }
{
    let t = read_tokens::token_at(s, at);
    let Token::End = t else {
        return false;
    };
    ended
}

// A line that stands whole, by the first slip of its names: the number of codes behind it, or why it is refused.
fn by_slip(slip: Slip, used: usize) -> Result<usize, Reason>
    ensures { result ≡ by_slip used slip }
{
    match slip {
        Slip::Clean => Ok(used),
        Slip::Unknown => Err(Reason::UnknownName),
        Slip::OtherKind => Err(Reason::WrongKind),
        Slip::Twice => Err(Reason::DeclaredTwice),
        Slip::Reserved => Err(Reason::ReservedName),
    }
}

// The whole line: its end, then its names.
fn check(s: &[u8], r: Result<Place, Fault>, ended: bool) -> Result<usize, Reason>
    ensures { result ≡ checked s.now ended r }
{
    match r {
        Ok(p) => {
            if !ends(s, p.at, ended) {
                return Err(Reason::Notation);
            }
            let slip = p.slip;
            by_slip(slip, p.used)
        }
        Err(Fault::Wrong) => Err(Reason::Notation),
        Err(Fault::Deep) => Err(Reason::TooDeep),
    }
}

// A line that declares nothing, which may be the claim.
pub fn plain(
    s: &[u8],
    r: Result<Place, Fault>,
    ended: bool,
    st: LineState,
    claim: bool,
) -> Result<LineState, Reason>
    ensures { result ≡ plain_read st claim (checked s.now ended r) }
{
    let used = check(s, r, ended)?;
    Ok(LineState {
        used,
        claimed: st.claimed | claim,
        ..st
    })
}

// The key of the word that stands next.
fn word_at(s: &[u8], at: usize) -> Key
    ensures { result ≡ word_of (token_at s.now at) }
{
    let t = read_tokens::token_at(s, at);
    let Token::Word(k, _) = t else {
        return Key { high: 0, low: 0 };
    };
    k
}

// How many names of the kind `of` are declared. A kind is known by the code of its first name: A_TEST, A_RELATION or A_LET.
fn count_of(st: LineState, of: u64) -> usize
    ensures { result ≡ count_of of st }
{
    match of {
        codes::A_TEST => st.tests,
        codes::A_RELATION => st.relations,
        _ => st.lets,
    }
}

// How many names of the kind may be declared.
fn most_of(of: u64) -> usize
    ensures { (result ≡ most_of of) × (result ≤ MOST-LETS) }
{
    match of {
        codes::A_TEST => codes::MOST_TESTS,
        codes::A_RELATION => codes::MOST_RELATIONS,
        _ => codes::MOST_LETS,
    }
}

// 1 for two equal numbers, 0 for others.
fn one_if(a: u64, b: u64) -> usize
    ensures { (result ≡ one_if a b) × (result ≤ 1) }
{
    if a == b {
        return 1;
    }
    0
}

// The state with a name more of the kind.
fn one_more(st: LineState, of: u64, used: usize) -> LineState
    requires { Small st }
    ensures { result ≡ one_more of used st }
{
    LineState {
        used,
        names: st.names + 1,
        tests: st.tests + one_if(of, codes::A_TEST),
        relations: st.relations + one_if(of, codes::A_RELATION),
        lets: st.lets + one_if(of, codes::A_LET),
        ..st
    }
}

// A line that declares the name at `at`, of the kind `of`: the name is entered if there may be one more.
pub fn declare(
    s: &[u8],
    at: usize,
    r: Result<Place, Fault>,
    ended: bool,
    st: LineState,
    of: u64,
    names: &mut [u64; 192],
) -> Result<LineState, Reason>
    requires { Small st × (of ≤ A-LET) }
    ensures { (result ≡ declared_read of st (checked s.now ended r)) × (names.new ≡ declared_names (word_of (token_at s.now at)) of st (checked s.now ended r) names.old) }
{
    let used = check(s, r, ended)?;
    let n = count_of(st, of);
    if most_of(of) <= n {
        return Err(Reason::TooMany);
    }
    read_names::enter(names, st.names, word_at(s, at), of + (n as u64));
    Ok(one_more(st, of, used))
}
