// Ring standings one letter on, as machine words. (Document 01, "Standings".) M and N stand in columns, one word for each right occurrence, so
// that a step of both is one union: the word of each column goes into the columns to which its occurrence may go. The standing of a prefix of
// one relation is the same union over the numbers that stand for themselves.
#![tactic(auto)]

ghost use Rattle.std.specs.Prelude.{suc, ◌≤◌, ◌^◌, ◌≡◌, not, ◌||◌, ◌++◌, eqb, length, get_or, drop, take};
ghost use Rattle.kat.specs.Lists.{upto};
ghost use Rattle.memory.specs.Memory.{zeros};
ghost use Rattle.standings.specs.Steps.{step_from};
ghost use Rattle.search_standings.specs.RingWords.{opened, flag, ring_begin, ring_onward};
ghost use Rattle.layout.specs.Layout.{WIDTH, MOST-RIGHT, RING-WORDS};
ghost use Rattle.search_standings.specs.Layout.{TOLD};
ghost use Rattle.search_ring.specs.inner.Columns.{column_joined, pushed, spread_over, laid_out};

use layout::{MOST_RIGHT, WIDTH};
use memory::{clear, store, word};
use search_standings::{FIRST, FLAG, Standing, TOLD, UPPER};
use search_steps::{enders_at, null_at, step_from, step_set};
use side_tables::Table;

// Column k + 1 joined with w, where there is such a column.
fn join(to: &mut [u64], k: usize, w: u64)
    requires { length to.old ≡ RING-WORDS }
    ensures { to.new ≡ column_joined to.old k w }
{
    if k < MOST_RIGHT {
        to[k + 1] = to[k + 1] | w;
    }
}

// The columns of the occurrences of s joined with w.
fn push(to: &mut [u64], s: u64, w: u64)
    requires { length to.old ≡ RING-WORDS }
    ensures { to.new ≡ pushed to.old s w }
{
    let mut left = s;
    while left != 0 {
        let k = u64::trailing_zeros(left) as usize;
        join(to, k, w);
        left = left & (left - 1);
    }
}

// The columns of the occurrences that may be read next, where o was read last, joined with w. Nothing is done where w is empty.
fn send(right: &Table, o: usize, a: usize, r: usize, w: u64, to: &mut [u64])
    requires { length to.old ≡ RING-WORDS }
    ensures { to.new ≡ pushed to.old (step_from right.now o a r) w }
{
    if w == 0 {
        return;
    }
    let s = step_from(right, o, a, r);
    push(to, s, w);
}

// Each of the columns sent on.
fn spread(right: &Table, from: &[u64], a: usize, r: usize, to: &mut [u64])
    requires { length to.old ≡ RING-WORDS }
    ensures { to.new ≡ spread_over right.now (record { atom = a; relation = r })
        (λ o. get_or from.now o 0) (upto 1 WIDTH) to.old }
{
    for o in 1..WIDTH {
        send(right, o, a, r, word(from, o), to);
    }
}

// Each p from 0 to m sent on by itself.
fn spread_single(right: &Table, m: usize, a: usize, r: usize, to: &mut [u64])
    requires { (length to.old ≡ RING-WORDS) × (m ≤ MOST-RIGHT) }
    ensures { to.new ≡ spread_over right.now (record { atom = a; relation = r })
        (λ p. 2 ^ p) (upto 0 (suc m)) to.old }
{
    for p in 0..m + 1 {
        send(right, p, a, r, 1u64 << p, to);
    }
}

// The pairs that open at an atom.
fn opened_at(right: &Table, from: &[u64], a: usize) -> u64
    requires { length from.now ≡ TOLD }
    ensures { result ≡ opened right.now from.now a }
{
    let enders = enders_at(right, a);
    let rows = bits::union_rows(&from[1..WIDTH], enders);
    rows % UPPER * UPPER
}

// Z, where it was z, and whether the atom is a right word.
fn flagged(z: u64, null: bool) -> u64
    ensures { result ≡ flag (not (eqb z 0) || null) }
{
    if z != 0 {
        return 1;
    }
    if null { 1 } else { 0 }
}

// The words of a standing, all 0.
fn wipe(to: &mut [u64])
    requires { length to.old ≡ RING-WORDS }
    ensures { to.new ≡ zeros TOLD ++ drop TOLD to.old }
{
    clear(&mut to[0..TOLD]);
}

// P, the first atom and Z in their places.
fn lay_out(to: &mut [u64], p: u64, first: u64, z: u64)
    ensures { to.new ≡ laid_out to.old p first z }
{
    store(to, 0, p);
    store(to, FIRST, first);
    store(to, FLAG, z);
}

// The standing of a prefix of one relation; n right occurrences.
pub fn begin(left: &Table, right: &Table, n: usize, a: usize, r: usize, to: &mut Standing)
    ensures { (take TOLD to.new ≡ ring_begin left.now right.now n (record { atom = a; relation = r }))
        × (drop TOLD to.new ≡ drop TOLD to.old) }
{
    let p = step_from(left, 0, a, r);
    let z = flagged(0, null_at(right, a));
    let m = memory::least(n, MOST_RIGHT);
    wipe(to);
    spread_single(right, m, a, r, to);
    lay_out(to, p, a as u64, z);
}

// The standing of a prefix one relation longer.
pub fn onward(left: &Table, right: &Table, from: &Standing, a: usize, r: usize, to: &mut Standing)
    ensures { (take TOLD to.new
        ≡ ring_onward left.now right.now (take TOLD from.now) (record { atom = a; relation = r }))
        × (drop TOLD to.new ≡ drop TOLD to.old) }
{
    let all = &from[..];
    let s = &all[0..TOLD];
    let p = step_set(left, s[0], a, r);
    let z = flagged(s[FLAG], null_at(right, a));
    let fresh = opened_at(right, s, a);
    wipe(to);
    spread(right, s, a, r, to);
    send(right, 0, a, r, fresh, to);
    lay_out(to, p, s[FIRST], z);
}
