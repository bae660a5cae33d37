// Sets of numbers below 64 as machine words: number k is a member where bit k is set. A table of such sets is a slice of rows, and a
// row past its end is empty. In a set, members are taken lowest number first (document 01, "The form for each place"): `Elements` gives
// them one after another, each as the trailing zeros of the word that is left, while the count of its ones falls.
#![tactic(auto)]

ghost use Rattle.std.specs.Prelude.{◌≡◌, cond, count_ones};
ghost use Rattle.claims.specs.Query.{bit};
ghost use Rattle.std.specs.Iterator.{YieldsFirst, at_most};
ghost use Rattle.bits.specs.Sets.{including, all_below, members, union_rows, meets_rows, any_member};
ghost use Rattle.bits.specs.Walk.{members_left};

use memory::word;

// All numbers below 64.
pub const ALL: u64 = 0xffff_ffff_ffff_ffff;

// Whether k is in s.
pub fn member(s: u64, k: usize) -> bool
    ensures { result ≡ bit k s }
{
    if k < 64 { (s >> k) % 2 == 1 } else { false }
}

// The set s with k in it, where k is below 64.
pub fn with(s: u64, k: usize) -> u64
    ensures { result ≡ including 64 s k }
{
    if k < 64 { s | (1u64 << k) } else { s }
}

// All numbers below n, and below 64.
pub fn below(n: usize) -> u64
    ensures { result ≡ all_below 64 n }
{
    if n < 64 { (1u64 << n) - 1 } else { ALL }
}

// The set w with p in it, if p is to be in it.
pub fn marked(w: u64, p: usize, on: bool) -> u64
    ensures { result ≡ cond on (including 64 w p) w }
{
    if on { with(w, p) } else { w }
}

// The members of a set, lowest first: those whose bits are still set.
#[derive(Clone, Copy)]
pub struct Elements {
    pub left: u64,
}

impl Elements {
    // The members of s.
    pub fn of(s: u64) -> Elements
        ensures { members_left result ≡ members s }
    {
        Elements { left: s }
    }
}

impl Iterator for Elements {
    type Item = usize;

    ghost next_gives = { YieldsFirst members_left };

    ghost remaining = { λ m. at_most (count_ones m.left) };

    fn next(&mut self) -> Option<usize> {
        if self.left == 0 {
            return None;
        }
        let k = self.left.trailing_zeros() as usize;
        self.left &= self.left - 1;
        Some(k)
    }
}

// The union of the rows of the members of s.
pub fn union_rows(rows: &[u64], s: u64) -> u64
    ensures { result ≡ union_rows rows.now s }
{
    Elements::of(s).fold(0, |all, k| all | word(rows, k))
}

// Whether the row of some member of s has a member in common with t.
pub fn meets_rows(rows: &[u64], s: u64, t: u64) -> bool
    ensures { result ≡ meets_rows rows.now s t }
{
    Elements::of(s).any(|k| (word(rows, k) & t) != 0)
}

// Whether k is in the row of some member of s.
pub fn any_member(rows: &[u64], s: u64, k: usize) -> bool
    ensures { result ≡ any_member rows.now s k }
{
    Elements::of(s).any(|p| member(word(rows, p), k))
}
