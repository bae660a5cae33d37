// Stored cases on standard input, one a line, escaped as vectors/README.md says. The programs that run them ask for one after the other.
#![tactic(auto)]

ghost use Rattle.std.specs.Prelude.{◌*◌, ◌≤◌, cond, ◌≡◌, length, take};
ghost use Rattle.case_lines.specs.Escapes.{hex_byte};
ghost use Rattle.case_lines.specs.Fields.{Puts, digits_in, hex_bytes, hex_pairs, no_bytes, with_digit, with_digits};
ghost use Rattle.case_lines.specs.Lines.{Scanned, Told, left};

use escape::Place;
use streams::STDIN;

mod escape; // escape.rt: the bytes that a line stands for

// How far the part of the input that was read last is used: the place of the next byte, and how many there are.
#[derive(Clone, Copy)]
pub struct Cases {
    pub at: usize,
    pub filled: usize,
}

// A case: how many bytes of it stand in the text, and how far the input is used behind it.
#[derive(Clone, Copy)]
pub struct Case {
    pub bytes: usize,
    pub behind: Cases,
}

// What a part of the input holds from a place on: the end of a line, with the bytes of the case and the place behind it, or more of the line.
#[derive(Clone, Copy)]
enum Found {
    Line(usize, usize),
    More(Place),
}

// A number in decimal digits at the start of a text, and how many bytes it has.
#[derive(Clone, Copy)]
pub struct Digits {
    pub value: usize,
    pub count: usize,
}

// Goes on in a line, up to its end or to the end of the part. What does not fit into the text is left out.
fn scan(part: &[u8], from: usize, filled: usize, text: &mut [u8], start: Place) -> Found
    ensures { Scanned part.now from filled text.old start result text.new }
{
    let mut place = start;
    for at in from..filled {
        if part.len() <= at {
            return Found::More(place);
        }
        let b = part[at];
        if b == 10 {
            return Found::Line(place.used, at + 1);
        }
        place = escape::step(text, place, b);
    }
    Found::More(place)
}

// The next case, its bytes in the text, or none at the end of the input. A line of more than 1,024 parts is taken for the end.
pub fn next(part: &mut [u8], used: Cases, text: &mut [u8]) -> Option<Case>
    ensures { Told (left part.old used.at used.filled) text.old result part.new text.new }
{
    let mut at = used.at;
    let mut filled = used.filled;
    let mut place = escape::start();
    for _ in 0..1024 {
        let s = scan(part, at, filled, text, place);
        match s {
            Found::Line(bytes, at) => {
                return Some(Case {
                    bytes,
                    behind: Cases { at, filled },
                });
            }
            Found::More(p) => place = p,
        }
        filled = io::read_full(STDIN, part);
        at = 0;
        if filled == 0 {
            return None;
        }
    }
    None
}

// A number with one more digit; one over 1,000,000,000 stays as it is.
fn more(value: usize, digit: usize) -> usize
    requires { digit ≤ 255 }
    ensures { result ≡ with_digit value digit }
{
    if 1000000000 < value {
        return value;
    }
    10 * value + digit
}

// The number at the start of the first n bytes of a text, of at most 20 digits.
pub fn number(text: &[u8], n: usize) -> Digits
    ensures { (result.count ≤ 20) × (result.count ≡ length (digits_in (take 20 (take n text.now))))
        × (result.value ≡ with_digits 0 (digits_in (take 20 (take n text.now)))) }
{
    let mut value: usize = 0;
    for i in 0..20 {
        if n <= i {
            return Digits { value, count: i };
        }
        if text.len() <= i {
            return Digits { value, count: i };
        }
        let b = text[i];
        if b < b'0' {
            return Digits { value, count: i };
        }
        if b'9' < b {
            return Digits { value, count: i };
        }
        value = more(value, (b - b'0') as usize);
    }
    Digits { value, count: 20 }
}

// Bytes that stand in hex at the start of a text: how many there are, and how many bytes of the text they take.
#[derive(Clone, Copy)]
pub struct HexBytes {
    pub bytes: usize,
    pub count: usize,
}

// The byte that two hex digits are; a byte that is no digit counts as the digit 0.
fn hex_byte(high: u8, low: u8) -> u8
    ensures { result ≡ hex_byte high low }
{
    16 * escape::digit(high) + escape::digit(low)
}

// The bytes that two hex digits each are at the start of a text, up to the first space, as many as there is room for.
fn hex_pairs(text: &[u8], to: &mut [u8]) -> usize
    ensures { Puts to.old 0 (hex_pairs text.now) result to.new }
{
    for used in 0..to.len() {
        if text.len() - 2 * used < 2 {
            return used;
        }
        if text[2 * used] == b' ' {
            return used;
        }
        to[used] = hex_byte(text[2 * used], text[2 * used + 1]);
    }
    to.len()
}

// Whether a `-` stands at the start of a text.
fn no_bytes(text: &[u8]) -> bool
    ensures { result ≡ no_bytes text.now }
{
    if text.len() == 0 {
        return false;
    }
    text[0] == b'-'
}

// The bytes that stand in hex at the start of a text, as many as there is room for; a `-` stands for no bytes.
pub fn hex(text: &[u8], to: &mut [u8]) -> HexBytes
    ensures { Puts to.old 0 (hex_bytes text.now) result.bytes to.new
        × (result.count ≡ cond (no_bytes text.now) 1 (2 * result.bytes)) }
{
    if no_bytes(text) {
        return HexBytes { bytes: 0, count: 1 };
    }
    let used = hex_pairs(text, to);
    HexBytes {
        bytes: used,
        count: 2 * used,
    }
}
