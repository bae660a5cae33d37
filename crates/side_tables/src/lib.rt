// The table of a side in lent memory, changed in place from part to part of its expression. (Document 01, "Standings".) The layout is that of
// `specs/SideTable.antt`.
#![tactic(auto)]

ghost use Rattle.std.specs.Prelude.{◌+◌, ◌≤◌, ◌<◌, ◌≡◌, length};
ghost use Rattle.kat.specs.Lists.{upto};
ghost use Rattle.bits.specs.Sets.{members};
ghost use Rattle.claims.specs.Query.{bit};
ghost use Rattle.memory.specs.Memory.{for_each};
ghost use Rattle.side_tables.specs.InPlace.{range_set, put_into, joined_at, joined, kept_if, cut_at, cut, marked_at, lettered_at, put_at_atom, added, sequenced, iterated};
ghost use Rattle.side_tables.specs.Layout.{TABLE, ROW};

// The words of an atom's row: one for nothing read, and one for each of 64 occurrences.
pub const ROW: usize = 65;

// Where the ends begin, behind the rows of 64 atoms: one word for each atom.
pub const ENDS: usize = 4160;

// Where the letters begin: one word for each of 16 relations.
pub const LETTERS: usize = 4224;

// Where the set of the atoms stands that are words.
pub const NULL: usize = 4240;

// The words of a table.
pub const TABLE: usize = 4241;

// The table of a side.
pub type Table = [u64; TABLE];

// The bits from lo to before hi.
fn range_set(lo: usize, hi: usize) -> u64
    ensures { result ≡ range_set lo hi }
{
    bits::below(hi) & (bits::ALL - bits::below(lo))
}

// The set f is put into the words at base + k, for each k of s.
fn put_into(table: &mut [u64], base: usize, f: u64, s: u64)
    requires { base + 64 ≤ length table.old }
    ensures { table.new ≡ for_each (put_into base f) (members s) table.old }
{
    let mut left = s;
    while left != 0 {
        let k = u64::trailing_zeros(left) as usize;
        table[base + k] = table[base + k] | f;
        left = left & (left - 1);
    }
}

// At atom a: those of `to` that may be first may also come after those of `from` that may be last.
fn join_at(table: &mut [u64], from: u64, to: u64, a: usize)
    requires { (a < 64) × (length table.old ≡ TABLE) }
    ensures { table.new ≡ joined_at from to a table.old }
{
    let f = table[ROW * a] & to;
    let s = table[ENDS + a] & from;
    put_into(table, ROW * a + 1, f, s);
}

// At every atom.
fn join_atoms(table: &mut [u64], from: u64, to: u64)
    requires { length table.old ≡ TABLE }
    ensures { table.new ≡ joined from to table.old }
{
    for a in 0..64 {
        join_at(table, from, to, a);
    }
}

// At every atom, where there is something to join.
fn join(table: &mut [u64], from: u64, to: u64)
    requires { length table.old ≡ TABLE }
    ensures { table.new ≡ joined from to table.old }
{
    if from == 0 {
        return;
    }
    if to == 0 {
        return;
    }
    join_atoms(table, from, to);
}

// s where `on`, and else without what is in r.
fn kept_if(on: bool, r: u64, s: u64) -> u64
    ensures { result ≡ kept_if on r s }
{
    if on { s } else { s & (bits::ALL - r) }
}

// At atom a: where it is not in x none of `to` is first, and where it is not in y none of `from` is last.
fn cut_at(table: &mut [u64], from: u64, to: u64, x: u64, y: u64, a: usize)
    requires { (a < 64) × (length table.old ≡ TABLE) }
    ensures { table.new ≡ cut_at from to x y a table.old }
{
    let first = kept_if(bits::member(x, a), to, table[ROW * a]);
    table[ROW * a] = first;
    let last = kept_if(bits::member(y, a), from, table[ENDS + a]);
    table[ENDS + a] = last;
}

// At every atom.
fn cut_ends(table: &mut [u64], from: u64, to: u64, x: u64, y: u64)
    requires { length table.old ≡ TABLE }
    ensures { table.new ≡ cut from to x y table.old }
{
    for a in 0..64 {
        cut_at(table, from, to, x, y, a);
    }
}

// The word at place i with bit k in it, where `on`.
fn mark(table: &mut [u64], i: usize, k: usize, on: bool)
    ensures { table.new ≡ marked_at i k on table.old }
{
    let w = bits::marked(memory::word(table, i), k, on);
    memory::store(table, i, w);
}

// The occurrence with bit k reads the relations of s.
fn add_letters(table: &mut [u64], k: usize, s: u64)
    ensures { table.new ≡ for_each (lettered_at k s) (upto 0 16) table.old }
{
    for r in 0..16 {
        mark(table, LETTERS + r, k, bits::member(s, r));
    }
}

// The set f is put into the words at `base` of the steps, at each atom of s.
fn put_at_atoms(table: &mut [u64], base: usize, f: u64, s: u64)
    requires { (base < ROW) × (length table.old ≡ TABLE) }
    ensures { table.new ≡ for_each (put_at_atom base f) (members s) table.old }
{
    let mut left = s;
    while left != 0 {
        let a = u64::trailing_zeros(left) as usize;
        table[ROW * a + base] = table[ROW * a + base] | f;
        left = left & (left - 1);
    }
}

// A new occurrence with bit k: at the atoms of f it may be read first, at those of l last, at those of g after itself, and it reads the
// relations of the set s.
fn add(table: &mut [u64], k: usize, f: u64, l: u64, g: u64, s: u64)
    requires { (k < 64) × (length table.old ≡ TABLE) }
    ensures { table.new ≡ added k f l g s table.old }
{
    let own = bits::with(0, k);
    put_at_atoms(table, 0, own, f);
    put_into(table, ENDS, own, l);
    put_at_atoms(table, k + 1, own, g);
    add_letters(table, k, s);
}

// A new occurrence with bit k, of which there are 64.
pub fn new_occurrence(table: &mut Table, k: usize, f: u64, l: u64, g: u64, s: u64)
    ensures { table.new ≡ added k f l g s table.old }
{
    if k < 64 {
        add(table, k, f, l, g, s);
    }
}

// Two parts in sequence, of the bits from lo to before mid and from mid to before hi; x and y are the sets of the atoms that are words of
// the left and of the right part. An occurrence of the right may follow one of the left; one of the right is first only at an atom
// of x, and one of the left last only at an atom of y.
pub fn sequence(table: &mut Table, lo: usize, mid: usize, hi: usize, x: u64, y: u64)
    ensures { table.new ≡ sequenced lo mid hi x y table.old }
{
    let from = range_set(lo, mid);
    let to = range_set(mid, hi);
    join(table, from, to);
    cut_ends(table, from, to, x, y);
}

// The part of the bits from lo to before hi one or more times: each of its occurrences may follow each other.
pub fn iterate(table: &mut Table, lo: usize, hi: usize)
    ensures { table.new ≡ iterated lo hi table.old }
{
    let s = range_set(lo, hi);
    join(table, s, s);
}
