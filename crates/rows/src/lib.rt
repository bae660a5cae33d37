// Relations on at most 64 events as tables of 64 rows: bit y of row x is the pair from event x to event y. (Document 01, "Sheet and graph
// bytes", last paragraph.) `|`, `;`, `?` and `[T]` give each row from its number and what stands there. `+` goes by rounds: in round k a row
// that has k is joined with row k, which itself does not change. A row past a table is empty.
#![tactic(auto)]

ghost use Rattle.std.specs.Prelude.{◌≡◌, cond, length};
ghost use Rattle.std.specs.Int.Bits.{bit_or};
ghost use Rattle.claims.specs.Query.{bit};
ghost use Rattle.rows.specs.Rows.{joined, composed, reflexive, joined_where, rounds, events_in, diagonal, lowest_pair, lowest_loop};

use bits::{marked, member};
use memory::word as row;

// No pair, and no event: a number past all pairs and all events.
pub const NOWHERE: usize = 4096;

// The pairs of t and those of u, in place. The tables have 64 rows.
fn join(t: &mut [u64], u: &[u64])
    requires { (length t.old ≡ 64) × (length u.now ≡ 64) }
    ensures { t.new ≡ joined t.old u.now }
{
    for (x, w) in t.iter_mut().enumerate() {
        *w |= u[x];
    }
}

// The pairs of t and those of u.
pub fn union(t: [u64; 64], u: &[u64; 64]) -> [u64; 64]
    ensures { result ≡ joined t u.now }
{
    let mut r = t;
    join(&mut r, u);
    r
}

// A pair of t and then one of u: row x is the union of the rows of u whose numbers row x of t has. The table has 64 rows.
fn compose(t: &[u64], u: &[u64], out: &mut [u64])
    requires { length out.old ≡ 64 }
    ensures { out.new ≡ composed t.now u.now }
{
    for (x, w) in out.iter_mut().enumerate() {
        *w = bits::union_rows(u, row(t, x));
    }
}

// A pair of t and then one of u.
pub fn sequence(t: [u64; 64], u: &[u64; 64]) -> [u64; 64]
    ensures { result ≡ composed t u.now }
{
    let mut r = [0u64; 64];
    compose(&t, u, &mut r);
    r
}

// The pairs of t, and each of n events with itself, in place. The table has 64 rows.
fn add_selves(t: &mut [u64], n: usize)
    requires { length t.old ≡ 64 }
    ensures { t.new ≡ reflexive t.old n }
{
    for (x, w) in t.iter_mut().enumerate() {
        *w = marked(*w, x, x < n);
    }
}

// The pairs of t, and each of n events with itself.
pub fn optional(t: [u64; 64], n: usize) -> [u64; 64]
    ensures { result ≡ reflexive t n }
{
    let mut r = t;
    add_selves(&mut r, n);
    r
}

// A row w joined with c where it has k.
fn merged(w: u64, c: u64, k: usize) -> u64
    ensures { result ≡ bit_or w (cond (bit k w) c 0) }
{
    if member(w, k) { w | c } else { w }
}

// The rows below n that have k, joined with c.
fn join_where(t: &mut [u64], c: u64, k: usize, n: usize)
    ensures { t.new ≡ joined_where t.old c k n }
{
    let m = memory::least(n, t.len());
    for x in 0..m {
        t[x] = merged(t[x], c, k);
    }
}

// The rows below n, closed.
fn close(t: &mut [u64], n: usize)
    ensures { t.new ≡ rounds t.old n n }
{
    for k in 0..n {
        join_where(t, row(t, k), k, n);
    }
}

// One pair of t or several in a row, among n events.
pub fn plus(t: [u64; 64], n: usize) -> [u64; 64]
    ensures { result ≡ rounds t n n }
{
    let mut r = t;
    close(&mut r, n);
    r
}

// Each event of s with itself, whatever stood in the table. It has 64 rows.
fn put_selves(t: &mut [u64], s: u64)
    requires { length t.old ≡ 64 }
    ensures { t.new ≡ diagonal s }
{
    for (x, w) in t.iter_mut().enumerate() {
        *w = marked(0, x, member(s, x));
    }
}

// Each event of s with itself.
pub fn tested(s: u64) -> [u64; 64]
    ensures { result ≡ diagonal s }
{
    let mut r = [0u64; 64];
    put_selves(&mut r, s);
    r
}

// The events below n, and below 64, whose atom is in the set s of atoms. An event past the list has atom 0.
pub fn events_in(atoms: &[u64], n: usize, s: u64) -> u64
    ensures { result ≡ events_in atoms.now n s }
{
    let m = memory::least(n, 64);
    let mut all: u64 = 0;
    for x in 0..m {
        all = marked(all, x, member(s, memory::word(atoms, x) as usize));
    }
    all
}

// The lowest pair, by from, then to, that t has and u lacks, from the events below n, or `NOWHERE`. The tables have 64 rows.
fn lowest_from(t: &[u64], u: &[u64], n: usize) -> usize
    requires { (length t.now ≡ 64) × (length u.now ≡ 64) }
    ensures { result ≡ lowest_pair t.now u.now n }
{
    let m = memory::least(n, 64);
    for x in 0..m {
        let left = t[x] & (bits::ALL - u[x]);
        if left != 0 {
            let y = u64::trailing_zeros(left) as usize;
            return 64 * x + y;
        }
    }
    NOWHERE
}

// The lowest pair, by from, then to, that t has and u lacks, from the events below n, as 64 * from + to; `NOWHERE` where there is none.
pub fn lowest_pair(t: &[u64; 64], u: &[u64; 64], n: usize) -> usize
    ensures { result ≡ lowest_pair t.now u.now n }
{
    lowest_from(t, u, n)
}

// The lowest event below n that t relates to itself, or `NOWHERE`. The table has 64 rows.
fn lowest_of(t: &[u64], n: usize) -> usize
    requires { length t.now ≡ 64 }
    ensures { result ≡ lowest_loop t.now n }
{
    let m = memory::least(n, 64);
    for x in 0..m {
        if member(t[x], x) {
            return x;
        }
    }
    NOWHERE
}

// The lowest event below n that t relates to itself; `NOWHERE` where there is none.
pub fn lowest_loop(t: &[u64; 64], n: usize) -> usize
    ensures { result ≡ lowest_loop t.now n }
{
    lowest_of(t, n)
}
