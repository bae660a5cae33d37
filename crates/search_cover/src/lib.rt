// Completion of ring standings as machine words: whether the completed ring is covered, and the atom with which a standing completes a
// refuting word. (Document 01, "Standings".) The turns of M are closed once, on a copy of its columns and in place: in round k a column that
// has k is joined with column k, which itself does not change. The cover test then seeks an end, or a pair of N, among the closed turns.
#![tactic(auto)]

ghost use Rattle.std.specs.Prelude.{◌+◌, ◌≤◌, ◌≡◌, cond, ◌||◌, ◌&&◌, length, get_or, set, take};
ghost use Rattle.std.specs.Int.Bits.{bit_or};
ghost use Rattle.claims.specs.Query.{bit};
ghost use Rattle.standings.specs.Steps.{enders, ends_set};
ghost use Rattle.search_standings.specs.RingWords.{ring_covered, ring_finals};
ghost use Rattle.search_standings.specs.First.{first_or};
ghost use Rattle.layout.specs.Layout.{MOST-RIGHT, RING-WORDS};
ghost use Rattle.search_standings.specs.Layout.{FIRST, TOLD};
ghost use Rattle.search_cover.specs.inner.Rounds.{joined_where, round, rounds, ends_by, pairs_of, pairs_by};

use bits::{any_member, below, member};
use layout::{MOST_RIGHT, RING_WORDS};
use memory::{least, store, word};
use search_standings::{FIRST, FLAG, Standing, TOLD, UPPER};
use search_steps::{enders_at, ends_set};
use side_tables::Table;

// A column w joined with column c where it has k.
fn merged(w: u64, c: u64, k: usize) -> u64
    ensures { result ≡ bit_or w (cond (bit k w) c 0) }
{
    if member(w, k) { w | c } else { w }
}

// The columns below hi that have k, joined with c.
fn join_where(t: &mut [u64], c: u64, k: usize, hi: usize)
    requires { hi ≤ length t.old }
    ensures { t.new ≡ joined_where t.old c k hi }
{
    for column in t[..hi].iter_mut() {
        *column = merged(*column, c, k);
    }
}

// The columns below hi that have k, joined with column k. Nothing is done where column k is empty.
fn close_through(t: &mut [u64], k: usize, hi: usize)
    requires { hi ≤ length t.old }
    ensures { t.new ≡ round t.old k hi }
{
    let c = word(t, k);
    if c == 0 {
        return;
    }
    join_where(t, c, k, hi);
}

// The turns, one or more, of the columns below hi.
fn close(t: &mut [u64], hi: usize)
    requires { hi ≤ length t.old }
    ensures { t.new ≡ rounds t.old hi hi }
{
    for k in 0..hi {
        close_through(t, k, hi);
    }
}

// The turns of the columns 1 to m of a standing: word 0, which is P, gives way to the empty column of 0.
fn close_columns(t: &mut [u64], m: usize)
    requires { (length t.old ≡ RING-WORDS) × (m ≤ MOST-RIGHT) }
    ensures { t.new ≡ rounds (set t.old 0 0) (m + 1) (m + 1) }
{
    store(t, 0, 0);
    close(t, m + 1);
}

// Whether some turns from 0 lead to one of the occurrences of e, up to m.
fn turn_ends(t: &[u64], e: u64, m: usize) -> bool
    requires { (length t.now ≡ RING-WORDS) × (m ≤ MOST-RIGHT) }
    ensures { result ≡ ends_by t.now e m }
{
    any_member(&t[1..RING_WORDS], e & below(m), 0)
}

// Whether for some pair (q, p) of the column w of q, with p up to m, none or more turns lead from q to p.
fn pair_turns(t: &[u64], w: u64, q: usize, m: usize) -> bool
    requires { (length t.now ≡ RING-WORDS) × (q ≤ m) × (m ≤ MOST-RIGHT) }
    ensures { result ≡ pairs_of t.now w q m }
{
    let pairs = (w / UPPER) & below(m + 1);
    if member(pairs, q) {
        return true;
    }
    any_member(t, pairs, q)
}

// Whether for some pair none or more turns lead from its q to its p.
fn some_pair_turns(t: &[u64], s: &[u64], m: usize) -> bool
    requires { (length t.now ≡ RING-WORDS) × (m ≤ MOST-RIGHT) }
    ensures { result ≡ pairs_by t.now s.now m }
{
    (1..m + 1).any(|q| pair_turns(t, word(s, q), q, m))
}

// Whether the turns, closed in t, cover the standing s.
fn turns_cover(right: &Table, m: usize, t: &[u64], s: &[u64]) -> bool
    requires { (length t.now ≡ RING-WORDS) × (length s.now ≡ TOLD) × (m ≤ MOST-RIGHT) }
    ensures { result ≡ (ends_by t.now (enders right.now (get_or s.now FIRST 0)) m
        || pairs_by t.now s.now m) }
{
    let e = enders_at(right, s[FIRST] as usize);
    if turn_ends(t, e, m) {
        return true;
    }
    some_pair_turns(t, s, m)
}

// Whether the completed ring is covered; n right occurrences.
fn covered(right: &Table, n: usize, s: &Standing) -> bool
    ensures { result ≡ ring_covered right.now n (take TOLD s.now) }
{
    let all = &s[..];
    if all[FLAG] != 0 {
        return true;
    }
    let m = least(n, MOST_RIGHT);
    let mut t = *s;
    close_columns(&mut t, m);
    turns_cover(right, m, &t, &all[0..TOLD])
}

// Whether atom a is live and one of the set p may be read last at it.
fn ends_live(left: &Table, live: u64, p: u64, a: usize) -> bool
    ensures { result ≡ (bit a live && ends_set left.now p a) }
{
    if member(live, a) {
        ends_set(left, p, a)
    } else {
        false
    }
}

// The atom with which a standing completes a refuting word: its first atom, or 64 where there is none. The cover test is made only where a
// left word may end at the first atom.
pub fn first_final(left: &Table, right: &Table, n: usize, live: u64, s: &Standing) -> usize
    ensures { result ≡ first_or 64 (ring_finals left.now right.now n live (take TOLD s.now)) }
{
    let a = s[FIRST] as usize;
    if ends_live(left, live, s[0], a) {
        if covered(right, n, s) {
            return 64;
        }
        return a;
    }
    64
}
