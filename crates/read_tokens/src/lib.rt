// The tokens of a line. (Document 01, "The query".) A token is found at a position of the line's bytes; a word comes with its key, the
// two machine words that its at most 16 bytes fill, so that two names are compared by two comparisons.
#![tactic(auto)]

ghost use Rattle.std.specs.Prelude.{◌≡◌, ◌+◌, ◌*◌, ◌≤◌, length, take, drop, get_or};
ghost use Rattle.claims.specs.Bytes.{letter as isLetter};
ghost use Rattle.read_tokens.specs.Scan.{is_space, word_byte, is_mark, front, half_of, key_of, word_at, token_at, first_byte};

// The bytes of a name, 8 in each half, zeros behind.
#[derive(Clone, Copy, PartialEq, Eq)]
pub struct Key {
    pub high: u64,
    pub low: u64,
}

// What stands next in a line, with the position behind it.
#[derive(Clone, Copy)]
pub enum Token {
    Word(Key, usize),
    Mark(u8, usize),
    Bad,
    End,
}

fn letter(b: u8) -> bool
    ensures { result ≡ isLetter b }
{
    b.is_ascii_alphabetic()
}

fn word_byte(b: u8) -> bool
    ensures { result ≡ word_byte b }
{
    letter(b) | b.is_ascii_digit()
}

// The marks `| ; * + ? [ ] ( ) & ! =`.
fn mark(b: u8) -> bool
    ensures { result ≡ is_mark b }
{
    b"|;*+?[]()&!=".contains(&b)
}

// The first position at or behind `at` that holds no space.
fn skip(s: &[u8], at: usize) -> usize
    requires { at ≤ length s.now }
    ensures { (result ≡ at + front is_space (drop at s.now)) × (result ≤ length s.now) }
{
    at + s[at..].iter().take_while(|b| **b == b' ').count()
}

// The end of the run of letters and digits from `at` on.
fn run_end(s: &[u8], at: usize) -> usize
    requires { at ≤ length s.now }
    ensures { (result ≡ at + front word_byte (drop at s.now)) × (result ≤ length s.now) }
{
    at + s[at..].iter().take_while(|b| word_byte(**b)).count()
}

// Byte j of the n bytes at i, and 0 behind them.
fn byte_of(s: &[u8], i: usize, n: usize, j: usize) -> u8
    requires { i + n ≤ length s.now }
    ensures { result ≡ get_or (take n (drop i s.now)) j 0 }
{
    if j < n { s[i + j] } else { 0 }
}

fn four(a: u8, b: u8, c: u8, d: u8) -> u64
    ensures { result ≡ ((a * 256 + b) * 256 + c) * 256 + d }
{
    (((a as u64) * 256 + (b as u64)) * 256 + (c as u64)) * 256 + (d as u64)
}

// Eight bytes of the n bytes at i, from the pth of them on, as one number.
fn half(s: &[u8], i: usize, n: usize, p: usize) -> u64
    requires { (i + n ≤ length s.now) × (p ≤ 8) }
    ensures { result ≡ half_of (take n (drop i s.now)) p }
{
    let a = byte_of(s, i, n, p);
    let b = byte_of(s, i, n, p + 1);
    let c = byte_of(s, i, n, p + 2);
    let d = byte_of(s, i, n, p + 3);
    let e = byte_of(s, i, n, p + 4);
    let f = byte_of(s, i, n, p + 5);
    let g = byte_of(s, i, n, p + 6);
    let h = byte_of(s, i, n, p + 7);
    four(a, b, c, d) * 4294967296 + four(e, f, g, h)
}

// The key of the n bytes at i.
fn key_of(s: &[u8], i: usize, n: usize) -> Key
    requires { i + n ≤ length s.now }
    ensures { result ≡ key_of (take n (drop i s.now)) }
{
    Key {
        high: half(s, i, n, 0),
        low: half(s, i, n, 8),
    }
}

// The run of letters and digits at i, of which the first is b: a name, where a letter comes first and 16 bytes are enough.
fn word(s: &[u8], i: usize, b: u8) -> Token
    requires { i ≤ length s.now }
    ensures { result ≡ word_at s.now i b (front word_byte (drop i s.now)) }
{
    let e = run_end(s, i);
    if letter(b) & (e - i <= 16) {
        return Token::Word(key_of(s, i, e - i), e);
    }
    Token::Bad
}

// The byte at or behind `at` that is no space, and 0 behind the last one: enough to see that a mark does not stand there.
pub fn first_byte(s: &[u8], at: usize) -> u8
    ensures { result ≡ first_byte s.now at }
{
    if s.len() <= at {
        return 0;
    }
    let i = skip(s, at);
    if s.len() <= i {
        return 0;
    }
    s[i]
}

// The token at or behind `at`.
pub fn token_at(s: &[u8], at: usize) -> Token
    ensures { result ≡ token_at s.now at }
{
    if s.len() <= at {
        return Token::End;
    }
    let i = skip(s, at);
    if s.len() <= i {
        return Token::End;
    }
    let b = s[i];
    if word_byte(b) {
        return word(s, i, b);
    }
    if mark(b) {
        return Token::Mark(b, i + 1);
    }
    Token::Bad
}
