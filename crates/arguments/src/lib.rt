// The arguments of the program, taken one after the other: what each of them is, the name of a call, an option, an allowance or a file, and
// which call they ask for in the end. A file is known by the number of the argument that names it, from 1; 0 stands for none. What each argument
// does is a definition, and so is the call in the end.
#![tactic(auto)]

ghost use Rattle.std.specs.Prelude.{◌≤◌, ◌≡◌};
ghost use Rattle.arguments.specs.ArgumentWords.{verb_of, kind_of, dashes_first, more, allowance_in};
ghost use Rattle.arguments.specs.Arguments.{nothing_behind, none_seen, begun, wrong_at, with_count, with_file, with_argument, taken, asks};
ghost use Rattle.arguments.specs.inner.Wanted.{wanted_by};

use layout::{MOST_STANDINGS, PROGRAM_ALLOWANCE};

// Which call the first argument names.
#[derive(Clone, Copy)]
pub enum Verb {
    Query,
    Sheet,
    Check,
    Draw,
    Judge,
    Help,
    Unknown,
}

// What an argument behind the first is.
#[derive(Clone, Copy)]
enum Kind {
    Allowance,
    Dot,
    Other,
    File,
}

// The call that the first argument names.
fn verb_in(word: &[u8]) -> Verb
    ensures { result ≡ verb_of word.now }
{
    if texts::same(word, b"query") {
        return Verb::Query;
    }
    if texts::same(word, b"sheet") {
        return Verb::Sheet;
    }
    if texts::same(word, b"check") {
        return Verb::Check;
    }
    if texts::same(word, b"draw") {
        return Verb::Draw;
    }
    if texts::same(word, b"judge") {
        return Verb::Judge;
    }
    if texts::same(word, b"--help") {
        return Verb::Help;
    }
    Verb::Unknown
}

// What a later argument is: one of the two options, another word that begins with two dashes, or a file.
fn kind_in(word: &[u8]) -> Kind
    ensures { result ≡ kind_of word.now }
{
    if texts::same(word, b"--allowance") {
        return Kind::Allowance;
    }
    if texts::same(word, b"--dot") {
        return Kind::Dot;
    }
    if dashes(word) {
        return Kind::Other;
    }
    Kind::File
}

// Whether the word begins with two dashes.
fn dashes(word: &[u8]) -> bool
    ensures { result ≡ dashes_first word.now }
{
    if word.len() < 2 {
        return false;
    }
    if word[0] == b'-' {
        return word[1] == b'-';
    }
    false
}

// A number with one more digit; one over MOST_STANDINGS stays as it is, since every such allowance is refused alike.
fn one_more(value: usize, digit: u8) -> usize
    requires { digit ≤ 9 }
    ensures { result ≡ more value digit }
{
    if MOST_STANDINGS < value {
        return value;
    }
    10 * value + digit as usize
}

// The allowance that a word of decimal digits is, if it is one.
fn count_in(word: &[u8]) -> Option<usize>
    ensures { result ≡ allowance_in word.now }
{
    if word.len() == 0 {
        return None;
    }
    let mut value: usize = 0;
    for &b in word {
        if b < 48 {
            return None;
        }
        if 57 < b {
            return None;
        }
        value = one_more(value, b - 48);
    }
    Some(value)
}

// What the arguments so far say: the call, the allowance, whether the next argument is the allowance, whether the graph is asked for as text,
// the arguments that name the query and the sheet or graph, and the first one that does not fit.
#[derive(Clone, Copy)]
pub struct Seen {
    pub verb: Verb,
    pub allowance: usize,
    pub counting: bool,
    pub dot: bool,
    pub query: usize,
    pub sheet: usize,
    pub wrong: usize,
}

// The call with its allowance or its form, and its files. A wrong one has the argument that does not fit; a short one lacks an argument.
#[derive(Clone, Copy)]
pub enum Call {
    Query(usize, usize),
    Sheet(usize, usize),
    Check(usize, usize),
    Draw(bool, usize, usize),
    Judge(usize, usize),
    Help,
    Wrong(usize),
    Short,
}

// How many files a call names at most, whether it has an allowance, whether it draws, and whether it is one.
#[derive(Clone, Copy)]
struct Wanted {
    files: usize,
    allowance: bool,
    draws: bool,
    known: bool,
}

// The four together.
fn wanting(files: usize, allowance: bool, draws: bool, known: bool) -> Wanted
    ensures { result ≡ record { files = files; allowance = allowance; draws = draws; known = known } }
{
    Wanted {
        files,
        allowance,
        draws,
        known,
    }
}

// What goes with a call.
fn wanted_by(v: Verb) -> Wanted
    ensures { result ≡ wanted_by v }
{
    match v {
        Verb::Query => wanting(1, true, false, true),
        Verb::Sheet => wanting(1, true, false, true),
        Verb::Check => wanting(2, false, false, true),
        Verb::Draw => wanting(2, false, true, true),
        Verb::Judge => wanting(2, false, false, true),
        Verb::Help => wanting(0, false, false, true),
        Verb::Unknown => wanting(0, false, false, false),
    }
}

// A call with nothing behind it.
fn nothing_behind(v: Verb) -> Seen
    ensures { result ≡ nothing_behind v }
{
    Seen {
        verb: v,
        allowance: PROGRAM_ALLOWANCE,
        counting: false,
        dot: false,
        query: 0,
        sheet: 0,
        wrong: 0,
    }
}

// Before any argument: the query program on standard input.
pub fn start() -> Seen
    ensures { result ≡ none_seen }
{
    nothing_behind(Verb::Query)
}

// Argument i does not fit.
fn wrong_at(s: Seen, i: usize) -> Seen
    ensures { result ≡ wrong_at s i }
{
    Seen { wrong: i, ..s }
}

// The first argument is the call.
fn begin(v: Verb, i: usize) -> Seen
    ensures { result ≡ begun v i }
{
    let s = nothing_behind(v);
    if wanted_by(v).known {
        return s;
    }
    wrong_at(s, i)
}

// An allowance where one is awaited.
fn with_count(s: Seen, n: Option<usize>, i: usize) -> Seen
    ensures { result ≡ with_count s n i }
{
    match n {
        Some(allowance) => Seen {
            allowance,
            counting: false,
            wrong: 0,
            ..s
        },
        None => wrong_at(s, i),
    }
}

// A file: the query and then the sheet or graph, as many as the call has.
fn with_file(s: Seen, i: usize) -> Seen
    ensures { result ≡ with_file s i }
{
    let most = wanted_by(s.verb).files;
    if s.query == 0 {
        if 0 < most {
            return Seen {
                counting: false,
                query: i,
                sheet: 0,
                wrong: 0,
                ..s
            };
        }
        return wrong_at(s, i);
    }
    if s.sheet == 0 {
        if 1 < most {
            return Seen {
                counting: false,
                sheet: i,
                wrong: 0,
                ..s
            };
        }
        return wrong_at(s, i);
    }
    wrong_at(s, i)
}

// An argument behind the first.
fn with_argument(s: Seen, k: Kind, i: usize) -> Seen
    ensures { result ≡ with_argument s k i }
{
    match k {
        Kind::Allowance => {
            if wanted_by(s.verb).allowance {
                return Seen {
                    counting: true,
                    wrong: 0,
                    ..s
                };
            }
            wrong_at(s, i)
        }
        Kind::Dot => {
            if wanted_by(s.verb).draws {
                return Seen {
                    counting: false,
                    dot: true,
                    wrong: 0,
                    ..s
                };
            }
            wrong_at(s, i)
        }
        Kind::Other => wrong_at(s, i),
        Kind::File => with_file(s, i),
    }
}

// One more argument, the one of number i: the first names the call. After one that does not fit nothing changes.
pub fn take(s: Seen, word: &[u8], i: usize) -> Seen
    ensures { result ≡ taken s word.now i }
{
    if 0 < s.wrong {
        return s;
    }
    if i == 1 {
        return begin(verb_in(word), i);
    }
    if s.counting {
        return with_count(s, count_in(word), i);
    }
    with_argument(s, kind_in(word), i)
}

// The call that all the arguments ask for.
pub fn asked(s: Seen) -> Call
    ensures { result ≡ asks s }
{
    if 0 < s.wrong {
        return Call::Wrong(s.wrong);
    }
    if s.counting {
        return Call::Short;
    }
    match s.verb {
        Verb::Query => Call::Query(s.allowance, s.query),
        Verb::Sheet => {
            if s.query == 0 {
                return Call::Short;
            }
            Call::Sheet(s.allowance, s.query)
        }
        Verb::Check => {
            if s.sheet == 0 {
                return Call::Short;
            }
            Call::Check(s.query, s.sheet)
        }
        Verb::Draw => {
            if s.sheet == 0 {
                return Call::Short;
            }
            Call::Draw(s.dot, s.query, s.sheet)
        }
        Verb::Judge => {
            if s.sheet == 0 {
                return Call::Short;
            }
            Call::Judge(s.query, s.sheet)
        }
        Verb::Help => Call::Help,
        Verb::Unknown => Call::Short,
    }
}
