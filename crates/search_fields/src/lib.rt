// The field of a standing in lent memory, as the sheet has it: tag 3, the length, and P and S of a path claim; or the first atom, Z, P, the
// rows of M and the rows of N of a ring claim. (Document 01, "Sheet and graph bytes".) The rows of M are gathered from the columns, and those
// of N are their upper halves. A field is put at the start of the slice that is lent, which past it is left as it is, and the number of its
// bytes is returned.
#![tactic(auto)]

ghost use Rattle.std.specs.Prelude.{◌+◌, ◌*◌, ◌≤◌, ◌<◌, ◌≡◌, ◌∷◌, true, false, length};
ghost use Rattle.claims.specs.Fields.{big_endian};
ghost use Rattle.search_contents.specs.Written.{written, over};
ghost use Rattle.search_contents.specs.FieldWords.{number_m, row_number, rows_bytes, field_words, field_length};
ghost use Rattle.layout.specs.Layout.{WIDTH, HEADER, PATH-FIELD, RING-FIELD};

use layout::{PATH_CONTENTS, RING_CONTENTS, WIDTH};
use search_standings::{FIRST, FLAG, Standing, UPPER};

// A number in n bytes, big-endian, from place `at` on; the place behind it. The room is required because the length of a whole sheet is
// tested before its first byte is written (refusal 11): a branch for a short buffer here could not be reached.
pub fn put_big_endian(out: &mut [u8], at: usize, n: usize, w: u64) -> usize
    requires { at + n ≤ length out.old }
    ensures { (result ≡ at + n) × (out.new ≡ over at (big_endian n w) out.old) }
{
    let mut left = w;
    let mut k = n;
    while 0 < k {
        k -= 1;
        out[at + k] = (left % 256) as u8;
        left = left / 256;
    }
    at + n
}

// Bytes as they are from place `at` on, with the same room; the place behind them.
pub fn put_bytes(out: &mut [u8], at: usize, bytes: &[u8]) -> usize
    requires { at + length bytes.now ≤ length out.old }
    ensures { (result ≡ at + length bytes.now) × (out.new ≡ over at bytes.now out.old) }
{
    out[at..at + bytes.len()].copy_from_slice(bytes);
    at + bytes.len()
}

// A field's tag and its length, with the same room.
pub fn put_header(out: &mut [u8], tag: u8, len: u64) -> usize
    requires { HEADER ≤ length out.old }
    ensures { (result ≡ HEADER) × (out.new ≡ written (tag ∷ big_endian 2 len) out.old) }
{
    out[0] = tag;
    put_big_endian(out, 1, 2, len)
}

// Row p of M: bit q where column q has bit p.
fn row_m(s: &Standing, p: usize) -> u64
    requires { p < WIDTH }
    ensures { result ≡ number_m s.now p }
{
    let mut row: u64 = 0;
    for q in 1..WIDTH {
        let on = bits::member(s[q], p);
        row = bits::marked(row, q, on);
    }
    row
}

// Row p of M, or of N.
fn row_of(s: &Standing, upper: bool, p: usize) -> u64
    requires { p < WIDTH }
    ensures { result ≡ row_number upper s.now p }
{
    if upper {
        if p == 0 {
            return 0;
        }
        return s[p] / UPPER;
    }
    row_m(s, p)
}

// The rows of M, or of N, 4 bytes each, from place `at` on; the place behind them.
fn put_rows(out: &mut [u8], at: usize, s: &Standing, upper: bool) -> usize
    requires { at + 4 * WIDTH ≤ length out.old }
    ensures { (result ≡ at + 4 * WIDTH) × (out.new ≡ over at (rows_bytes upper s.now) out.old) }
{
    let mut next = at;
    for p in 0..WIDTH {
        let row = row_of(s, upper, p);
        next = put_big_endian(out, next, 4, row);
    }
    next
}

// The field of a path standing.
fn put_path(out: &mut [u8], s: &Standing) -> usize
    requires { PATH-FIELD ≤ length out.old }
    ensures { (result ≡ PATH-FIELD) × (out.new ≡ written (field_words false s.now) out.old) }
{
    let contents = put_header(out, 3, PATH_CONTENTS as u64);
    let second = put_big_endian(out, contents, 8, s[0]);
    put_big_endian(out, second, 8, s[1])
}

// The field of a ring standing.
fn put_ring(out: &mut [u8], s: &Standing) -> usize
    requires { RING-FIELD ≤ length out.old }
    ensures { (result ≡ RING-FIELD) × (out.new ≡ written (field_words true s.now) out.old) }
{
    let contents = put_header(out, 3, RING_CONTENTS as u64);
    let flag = put_big_endian(out, contents, 1, s[FIRST]);
    let left = put_big_endian(out, flag, 1, s[FLAG]);
    let table_m = put_big_endian(out, left, 8, s[0]);
    let table_n = put_rows(out, table_m, s, false);
    put_rows(out, table_n, s, true)
}

// The field of a standing, with the same room.
pub fn put_standing(ring: bool, s: &Standing, out: &mut [u8]) -> usize
    requires { field_length ring ≤ length out.old }
    ensures { (result ≡ field_length ring) × (out.new ≡ written (field_words ring s.now) out.old) }
{
    if ring {
        return put_ring(out, s);
    }
    put_path(out, s)
}
