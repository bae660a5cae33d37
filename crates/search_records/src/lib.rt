// The working memory of a path claim: one record of 32 bytes for each standing, its P, its S, the place of its parent, and its letter.
// A parent's place is 0 for the empty prefix, and i + 1 for standing i; a letter is 16 * atom + relation. (Document 01, "Standings".)
// What is required is that as many records were lent as are looked at, which the search call has tested (refusal 9).
#![tactic(auto)]

ghost use Rattle.std.specs.Prelude.{◌≤◌, ◌≡◌, length, get_or, set};
ghost use Rattle.claims.specs.Calls.{cleared};
ghost use Rattle.search_records.specs.Records.{blank, Found};

#[derive(Clone, Copy)]
pub struct Record {
    pub p: u64,
    pub s: u64,
    pub parent: u64,
    pub letter: u64,
}

// The record that is all zero.
const BLANK: Record = Record {
    p: 0,
    s: 0,
    parent: 0,
    letter: 0,
};

// How many records were lent.
pub fn count(records: &[Record]) -> usize
    ensures { result ≡ length records.now }
{
    records.len()
}

// The record at place i, or the blank one past the end.
pub fn load(records: &[Record], i: usize) -> Record
    ensures { result ≡ get_or records.now i blank }
{
    if i < records.len() { records[i] } else { BLANK }
}

// The first place below n at which this P and S are kept.
pub fn find(records: &[Record], n: usize, p: u64, s: u64) -> Option<usize>
    requires { n ≤ length records.now }
    ensures { Found records.now n p s result }
{
    records[..n].iter().position(|r| r.p == p && r.s == s)
}

// The record put at place i; past the end nothing.
pub fn keep(records: &mut [Record], i: usize, r: Record)
    ensures { records.new ≡ set records.old i r }
{
    if i < records.len() {
        records[i] = r;
    }
}

// The first n records zero.
pub fn clear(records: &mut [Record], n: usize)
    requires { n ≤ length records.old }
    ensures { records.new ≡ cleared blank n records.old }
{
    records[..n].fill(BLANK);
}
