// Completion of ring standings on cells: whether the completed ring is covered, and whether a standing completes a refuting word. (Document
// 01, "Standings".) The turns of M are closed once, on its rows: in round k a row that has k is joined with row k, which itself does not
// change. P is read as one word, so its cells have to be of four bytes, below CELL.
#![tactic(auto)]

ghost use Rattle.std.specs.Prelude.{◌+◌, ◌≤◌, ◌<◌, ℕ, ◌≡◌, cond, ◌||◌, not, ◌&&◌, length, get_or};
ghost use Rattle.std.specs.Int.Bits.{bit_or};
ghost use Rattle.kat.specs.Lists.{member, is_empty};
ghost use Rattle.claims.specs.Query.{bit};
ghost use Rattle.standings.specs.Steps.{enders, ends_set};
ghost use Rattle.sheet_standings.specs.RingCells.{first_in, ring_covered, ring_finals};
ghost use Rattle.sheet_standings.specs.Layout.{CELL};
ghost use Rattle.layout.specs.Layout.{MOST-RIGHT};
ghost use Rattle.sheet_cover.specs.inner.Rounds.{joined_where, round, rounds, ends_by, pairs_of, pairs_by};

use bits::{below, member};
use layout::MOST_RIGHT;
use memory::{least, word};
use sheet_ring::left_of;
use sheet_standings::{Cells, M_AT, N_AT};
use sheet_steps::{enders_at, ends_set};
use side_tables::Table;

// A row w joined with row c where it has k.
fn merged(w: u64, c: u64, k: usize) -> u64
    ensures { result ≡ bit_or w (cond (bit k w) c 0) }
{
    if member(w, k) { w | c } else { w }
}

// The rows below hi, which are there, that have k, joined with c.
fn join_where(t: &mut [u64], c: u64, k: usize, hi: usize)
    requires { hi ≤ length t.old }
    ensures { t.new ≡ joined_where t.old c k hi }
{
    for y in 0..hi {
        t[y] = merged(t[y], c, k);
    }
}

// The rows below hi, which are there, that have k, joined with row k. Nothing is done where row k is empty.
fn close_through(t: &mut [u64], k: usize, hi: usize)
    requires { hi ≤ length t.old }
    ensures { t.new ≡ round t.old k hi }
{
    let c = word(t, k);
    if c == 0 {
        return;
    }
    join_where(t, c, k, hi);
}

// The turns, one or more, of the rows below hi, which are there.
fn close(t: &mut [u64], hi: usize)
    requires { hi ≤ length t.old }
    ensures { t.new ≡ rounds t.old hi hi }
{
    for k in 0..hi {
        close_through(t, k, hi);
    }
}

// Whether the row w of 0 has one of the occurrences of e, up to m, of at most MOST_RIGHT.
fn turn_ends(w: u64, e: u64, m: usize) -> bool
    requires { m ≤ MOST-RIGHT }
    ensures { result ≡ ends_by w e m }
{
    ((w / 2) & (e & below(m))) != 0
}

// Whether for some pair (q, p) of the row v of N, with p up to m, of at most MOST_RIGHT, p is q or the row w of q has it.
fn pair_turns(w: u64, v: u64, q: usize, m: usize) -> bool
    requires { (q ≤ m) × (m ≤ MOST-RIGHT) }
    ensures { result ≡ pairs_of w v q m }
{
    let pairs = v & below(m + 1);
    if member(pairs, q) {
        return true;
    }
    (pairs & w) != 0
}

// Whether for some pair none or more turns, closed in t, lead from its q to its p. There are at most MOST_RIGHT right occurrences.
fn some_pair_turns(t: &[u64], s: &[u64], m: usize) -> bool
    requires { m ≤ MOST-RIGHT }
    ensures { result ≡ pairs_by t.now s.now m }
{
    for q in 1..m + 1 {
        if pair_turns(word(t, q), word(s, N_AT + q), q, m) {
            return true;
        }
    }
    false
}

// Whether the turns, closed in t, cover the standing s. There are at most MOST_RIGHT right occurrences.
fn turns_cover(right: &Table, m: usize, t: &[u64], s: &[u64]) -> bool
    requires { m ≤ MOST-RIGHT }
    ensures { result ≡ (ends_by (get_or t.now 0 0) (enders right.now (first_in s.now)) m
        || pairs_by t.now s.now m) }
{
    let e = enders_at(right, (word(s, 0) / 256 % 256) as usize);
    if turn_ends(word(t, 0), e, m) {
        return true;
    }
    some_pair_turns(t, s, m)
}

// Whether the completed ring is covered; n right occurrences.
fn covered(right: &Table, n: usize, s: &Cells) -> bool
    ensures { result ≡ ring_covered right.now n s.now }
{
    let all = &s[..];
    if all[0] % 256 != 0 {
        return true;
    }
    let m = least(n, MOST_RIGHT);
    let mut t = *s;
    close(&mut t[M_AT..N_AT], m + 1);
    turns_cover(right, m, &t[M_AT..N_AT], all)
}

// Whether atom a is live and one of the set p may be read last at it.
fn ends_live(left: &Table, live: u64, p: u64, a: usize) -> bool
    ensures { result ≡ (bit a live && ends_set left.now p a) }
{
    if member(live, a) {
        return ends_set(left, p, a);
    }
    false
}

// Whether a standing completes a refuting word, which it does with its first atom. The cover test is made only where that is live and a
// left word may end there.
pub fn completes(left: &Table, right: &Table, n: usize, live: u64, s: &Cells) -> bool
    requires { (i : ℕ) → get_or s.now i 0 < CELL }
    ensures { result ≡ not (is_empty (ring_finals left.now right.now n live s.now)) }
{
    let a = (s[0] / 256 % 256) as usize;
    if ends_live(left, live, left_of(s), a) {
        return !covered(right, n, s);
    }
    false
}

// Whether it completes one with atom a.
pub fn completes_with(left: &Table, right: &Table, n: usize, live: u64, s: &Cells, a: usize) -> bool
    requires { (i : ℕ) → get_or s.now i 0 < CELL }
    ensures { result ≡ member a (ring_finals left.now right.now n live s.now) }
{
    if a == (s[0] / 256 % 256) as usize {
        return completes(left, right, n, live, s);
    }
    false
}
