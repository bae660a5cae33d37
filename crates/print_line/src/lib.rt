// The line that the query program prints, as bytes in lent memory. (Document 01, "The desk's cases".) Whatever does not fit is not written,
// and the place after a piece of text is at most the length of the memory; for memory that is long enough the whole line stands there.
#![tactic(auto)]

ghost use Rattle.std.specs.Prelude.{◌-◌, ◌≤◌, [], ◌∷◌, ◌++◌, ◌≡◌, length, take, drop};
ghost use Rattle.claims.specs.Bytes.{text as quoted};
ghost use Rattle.claims.specs.Printed.{decimal, spaced};
ghost use Rattle.claims.specs.Refusals.{number as number_of};
ghost use Rattle.refusals.specs.Causes.{cause_of};
ghost use Rattle.print_line.specs.Puts.{Puts};

use memory::wide;
use refusals::Reason;

// One byte.
pub fn put_byte(out: &mut [u8], at: usize, b: u8) -> usize
    ensures { Puts out.old at (b ∷ []) result out.new }
{
    if at < out.len() {
        out[at] = b;
        return at + 1;
    }
    out.len()
}

// A text.
pub fn put_text(out: &mut [u8], at: usize, bytes: &[u8]) -> usize
    ensures { Puts out.old at bytes.now result out.new }
{
    let mut to = memory::least(at, out.len());
    for b in bytes {
        to = put_byte(out, to, *b);
    }
    to
}

// The digits of n at the end of the array, which is as long as the largest number; where they begin.
fn digits(n: u64, to: &mut [u8]) -> usize
    requires { length to.old ≡ 20 }
    ensures { (result ≤ 20) × (take (20 - result) (drop result to.new) ≡ decimal n) }
{
    let mut left = n;
    let mut i = 20;
    while 10 <= left {
        i -= 1;
        to[i] = (48 + left % 10) as u8;
        left = left / 10;
    }
    i -= 1;
    to[i] = (48 + left) as u8;
    i
}

// A number in decimal digits.
pub fn put_decimal(out: &mut [u8], at: usize, n: u64) -> usize
    ensures { Puts out.old at (decimal n) result out.new }
{
    let mut ds = [0u8; 20];
    let i = digits(n, &mut ds);
    put_text(out, at, &ds[i..])
}

// A space and a number in decimal digits.
pub fn put_spaced(out: &mut [u8], at: usize, n: u64) -> usize
    ensures { Puts out.old at (spaced (n ∷ [])) result out.new }
{
    let to = put_byte(out, at, b' ');
    put_decimal(out, to, n)
}

// Numbers, each after a space.
fn put_numbers(out: &mut [u8], at: usize, ns: &[u8]) -> usize
    ensures { Puts out.old at (spaced ns.now) result out.new }
{
    let mut to = memory::least(at, out.len());
    for n in ns {
        to = put_spaced(out, to, wide(*n));
    }
    to
}

// `proved` and the count.
pub fn proved_line(out: &mut [u8], count: usize) -> usize
    ensures { Puts out.old 0 (quoted "proved" ++ (spaced (count ∷ []) ++ (10 ∷ []))) result out.new }
{
    let a = put_text(out, 0, b"proved");
    let b = put_spaced(out, a, count as u64);
    put_byte(out, b, b'\n')
}

// `refuted` and the word, as its numbers.
pub fn refuted_line(out: &mut [u8], word: &[u8]) -> usize
    ensures { Puts out.old 0 (quoted "refuted" ++ (spaced word.now ++ (10 ∷ []))) result out.new }
{
    let a = put_text(out, 0, b"refuted");
    let b = put_numbers(out, a, word);
    put_byte(out, b, b'\n')
}

// `refusal`, the number, `line`, the place.
pub fn refusal_line(out: &mut [u8], why: Reason, place: usize) -> usize
    ensures { Puts out.old 0
        (quoted "refusal" ++ (spaced (number_of (cause_of why) ∷ []) ++ (quoted " line" ++ (spaced (place ∷ []) ++ (10 ∷ [])))))
        result out.new }
{
    let a = put_text(out, 0, b"refusal");
    let b = put_spaced(out, a, refusals::number(why));
    let c = put_text(out, b, b" line");
    let d = put_spaced(out, c, place as u64);
    put_byte(out, d, b'\n')
}
