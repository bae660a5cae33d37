// Fields in bytes: a one-byte tag, a two-byte big-endian length, contents. (Document 01, "Sheet and graph bytes".) Sheets and graphs are read
// by these functions, from any place on; no refusal is known here.
#![tactic(auto)]

ghost use Rattle.std.specs.Prelude.{◌+◌, ◌≤◌, ◌<◌, ◌≡◌, length, drop};
ghost use Rattle.claims.specs.Fields.{next_field};
ghost use Rattle.claims.specs.SheetReading.{tagged};
ghost use Rattle.fields.specs.Places.{cell_at, Stands};

use memory::wide;

// A whole field: its tag, the place of its contents, and the place behind them, where the next one starts.
#[derive(Clone, Copy)]
pub struct Field {
    pub tag: u64,
    pub from: usize,
    pub to: usize,
}

// The field that starts at place `at`; none where there are fewer bytes than its header, or its length, says.
pub fn next(bytes: &[u8], at: usize) -> Option<Field>
    ensures { Stands bytes.now at (next_field (drop at bytes.now)) result }
{
    if bytes.len() < 3 {
        return None;
    }
    if bytes.len() - 3 < at {
        return None;
    }
    let tag = wide(bytes[at]);
    let high = wide(bytes[at + 1]);
    let low = wide(bytes[at + 2]);
    let from = at + 3;
    let n = (high * 256 + low) as usize;
    if bytes.len() - from < n {
        return None;
    }
    let to = from + n;
    Some(Field { tag, from, to })
}

// Whether the byte at place `at` is the tag t.
pub fn tagged(bytes: &[u8], at: usize, t: u64) -> bool
    ensures { result ≡ tagged t (drop at bytes.now) }
{
    if bytes.len() <= at {
        return false;
    }
    let tag = wide(bytes[at]);
    tag == t
}

// The number of four bytes at place `at`. That they are there is required for loops over cells whose bounds are known before: a test for
// each cell would be their greatest cost.
pub fn cell_within(bytes: &[u8], at: usize) -> u64
    requires { at + 4 ≤ length bytes.now }
    ensures { result ≡ cell_at bytes.now at }
{
    let a = wide(bytes[at]);
    let b = wide(bytes[at + 1]);
    let c = wide(bytes[at + 2]);
    let d = wide(bytes[at + 3]);
    a * 16777216 + b * 65536 + c * 256 + d
}

// The number of four bytes at place `at`, or 0 where there are fewer.
pub fn cell(bytes: &[u8], at: usize) -> u64
    ensures { result ≡ cell_at bytes.now at }
{
    if bytes.len() < 4 {
        return 0;
    }
    if bytes.len() - 4 < at {
        return 0;
    }
    cell_within(bytes, at)
}
