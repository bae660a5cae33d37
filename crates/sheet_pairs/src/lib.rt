// The rows of N of a ring standing, one letter on: a row is sent into the rows of the occurrences that may be read next, and so are the
// pairs that open. (Document 01, "Standings".) A row is a set of numbers from 0 to MOST_RIGHT.
#![tactic(auto)]

ghost use Rattle.std.specs.Prelude.{◌/◌, ◌^◌, ◌<◌, ◌≡◌, cond, eqb, length};
ghost use Rattle.kat.specs.Lists.{upto};
ghost use Rattle.memory.specs.Memory.{words};
ghost use Rattle.bits.specs.Sets.{meets};
ghost use Rattle.standings.specs.Steps.{step_from, joined};
ghost use Rattle.sheet_standings.specs.RingCells.{row_n, opened, sent};
ghost use Rattle.layout.specs.Layout.{WIDTH};
ghost use Rattle.sheet_pairs.specs.inner.Rows.{row_joined, pushed, spread_over};

use layout::WIDTH;
use memory::{clear, word};
use sheet_standings::{M_AT, N_AT};
use sheet_steps::{enders_at, step_from};
use side_tables::Table;

// Row k joined with w, where there is such a row.
fn join(to: &mut [u64], k: usize, w: u64)
    ensures { to.new ≡ row_joined to.old k w }
{
    if k < to.len() {
        to[k] = to[k] | w;
    }
}

// The rows of the occurrences of s joined with w. N has WIDTH rows.
fn push(to: &mut [u64], s: u64, w: u64)
    requires { length to.old ≡ WIDTH }
    ensures { to.new ≡ pushed to.old s w }
{
    let mut rest = s;
    while rest != 0 {
        let k = u64::trailing_zeros(rest) as usize;
        join(to, k + 1, w);
        rest = rest & (rest - 1);
    }
}

// The rows of the occurrences that may be read next, where o was read last, joined with w. Nothing is done where w is empty. N has WIDTH rows.
fn send(right: &Table, o: usize, a: usize, r: usize, w: u64, to: &mut [u64])
    requires { length to.old ≡ WIDTH }
    ensures { to.new ≡ pushed to.old (step_from right.now o a r) w }
{
    if w == 0 {
        return;
    }
    let s = step_from(right, o, a, r);
    push(to, s, w);
}

// The rows 1 to MOST_RIGHT of N of a standing sent on. N has WIDTH rows.
fn spread(right: &Table, from: &[u64], a: usize, r: usize, to: &mut [u64])
    requires { length to.old ≡ WIDTH }
    ensures { to.new
        ≡ spread_over right.now (record { atom = a; relation = r }) (row_n from.now) (upto 1 WIDTH) to.old }
{
    for o in 1..WIDTH {
        send(right, o, a, r, word(from, N_AT + o), to);
    }
}

// What row p of M adds to the pairs that open at an atom, whose enders are e: p, where a member of the row may end. M has WIDTH rows.
fn opens(row: u64, e: u64, p: usize) -> u64
    requires { p < WIDTH }
    ensures { result ≡ cond (meets (row / 2) e) (2 ^ p) 0 }
{
    if ((row / 2) & e) != 0 { 1u64 << p } else { 0 }
}

// The pairs that open at an atom.
fn opened_at(right: &Table, from: &[u64], a: usize) -> u64
    ensures { result ≡ opened right.now from.now a }
{
    let e = enders_at(right, a);
    let mut set = 0;
    for p in 0..WIDTH {
        set += opens(word(from, M_AT + p), e, p);
    }
    set
}

// The rows of N one letter on: the pairs that open, and those of each row. N has WIDTH rows.
pub fn pairs_on(right: &Table, from: &[u64], a: usize, r: usize, to: &mut [u64])
    requires { length to.old ≡ WIDTH }
    ensures { to.new ≡ words WIDTH (λ q. cond (eqb q 0) 0
        (joined right.now (record { atom = a; relation = r }) (sent right.now from.now a) q (upto 0 WIDTH))) }
{
    let fresh = opened_at(right, from, a);
    clear(to);
    send(right, 0, a, r, fresh, to);
    spread(right, from, a, r, to);
}
