// What the reader says of a query, as one line: `refusal N line P`, or `accepted path L R` or `accepted ring L R` with the numbers of left and
// right occurrences. It is made as bytes in lent memory.
#![tactic(auto)]

ghost use Rattle.std.specs.Prelude.{◌≤◌, length};
ghost use Rattle.claims.specs.Reading.{read as reading};
ghost use Rattle.print_line.specs.Puts.{Puts};
ghost use Rattle.reading_line.specs.Shown.{kind_text, accepted_line, read_line, LONGEST};
ghost use Rattle.reading_line.specs.inner.Answers.{answer_line};

use print_line::{put_byte, put_spaced, put_text};
use query::Facts;
use refusals::Refusal;
use side_tables::TABLE;

// `ring` or `path`.
fn put_kind(out: &mut [u8], at: usize, ring: bool) -> usize
    ensures { Puts out.old at (kind_text ring) result out.new }
{
    if ring {
        return put_text(out, at, b"ring");
    }
    put_text(out, at, b"path")
}

// `accepted`, the kind of the claim, and the occurrences of its two sides.
fn accepted_line(out: &mut [u8], ring: bool, left: usize, right: usize) -> usize
    ensures puts { Puts out.old 0 (accepted_line ring left right) result out.new }
    ensures short { length (accepted_line ring left right) ≤ LONGEST }
{
    let a = put_text(out, 0, b"accepted ");
    let b = put_kind(out, a, ring);
    let c = put_spaced(out, b, left as u64);
    let d = put_spaced(out, c, right as u64);
    put_byte(out, d, b'\n')
}

// The line of what the reader answered.
fn answer_line(out: &mut [u8], a: Result<Facts, Refusal>) -> usize
    ensures puts { Puts out.old 0 (answer_line a) result out.new }
    ensures short { length (answer_line a) ≤ LONGEST }
{
    match a {
        Ok(f) => accepted_line(out, f.ring, f.left, f.right),
        Err(e) => print_line::refusal_line(out, e.why, e.place),
    }
}

// The bytes of the longest line: two numbers of at most 20 digits, and 16 other bytes.
pub const LONGEST: usize = 56;

// The line for the query that the text is, as far as it fits, and how long it is.
pub fn line(text: &[u8], out: &mut [u8]) -> usize
    ensures puts { Puts out.old 0 (read_line (reading text.now)) result out.new }
    ensures short { length (read_line (reading text.now)) ≤ LONGEST }
{
    let mut codes = [0u64; 4096];
    let mut left = [0u64; TABLE];
    let mut right = [0u64; TABLE];
    let a = query::read(text, &mut codes, &mut left, &mut right);
    answer_line(out, a)
}
