// Occurrences and leaves of the two sides of a decision, counted from the codes of a query by the places where its expressions start, and the
// limits that refusal 8 is for (document 01, "Standings", Limits). Nothing is expanded: a let counts what its expression counted, and every
// sum stops at 1,000, above all limits.
#![tactic(auto)]

ghost use Rattle.std.specs.Prelude.{◌≡◌, cond, [], ℕ, ◌+◌, replicate};
ghost use Rattle.side_limits.specs.Tally.{capped, tally, relation_count};
ghost use Rattle.side_limits.specs.Places.{count_at, count_kind};
ghost use Rattle.side_limits.specs.Sizes.{right_of, sizes_of, within_test};
ghost use Rattle.side_limits.specs.inner.CappedSums.{in_table, Table, sums_of};
ghost use Rattle.layout.specs.Layout.{MOST-RIGHT};

use memory::word;
use side_claim::Decision;

// Occurrences and leaves of a side, up to 1,000.
#[derive(Clone, Copy)]
pub struct Size {
    pub occurrences: u64,
    pub leaves: u64,
}

// What the two sides of a decision count, whether its claim is one of rings, and a1's own leaves.
#[derive(Clone, Copy)]
pub struct Sizes {
    pub ring: bool,
    pub left: Size,
    pub right: Size,
    pub own: u64,
}

// Occurrences, or leaves: of the left side, of the right side and of a1.
#[derive(Clone, Copy)]
struct Sums {
    left: u64,
    right: u64,
    own: u64,
}

// A table with what each code of an expression counts: the codes from here on count nothing.
const TABLE: usize = 96;

// A sum that stops at 1,000.
fn add(a: u64, b: u64) -> u64
    ensures { result ≡ capped (a + b) }
{
    a.saturating_add(b).min(1000)
}

// The first entries: a bracketed test counts `test`, and each relation 1.
fn start_table(test: u64, table: &mut [u64])
    requires { table.old ≡ replicate 96 0 }
    ensures { Table test (λ k. 1) [] table.new }
{
    for i in codes::A_RELATION as usize..codes::ANY as usize {
        memory::store(table, i, 1);
    }
    memory::store(table, codes::TESTED as usize, test);
}

// Each `within` line gives its relation two tests more.
fn add_limits(codes: &[u64], test: u64, table: &mut [u64])
    requires { Table test (λ r. 1) [] table.old }
    ensures { Table test (relation_count test codes.now) [] table.new }
{
    let tests = add(test, test);
    for k in codes {
        if *k < codes::WITHIN_LINE {
            continue;
        }
        if codes::CLOSED_LINE <= *k {
            continue;
        }
        let at = (codes::A_RELATION + (*k - codes::WITHIN_LINE)) as usize;
        let w = add(word(table, at), tests);
        memory::store(table, at, w);
    }
}

// Each let counts what its expression counts. A let that the table has no place for is not kept.
fn count_lets(codes: &[u64], table: &mut [u64])
    ensures { (t : ℕ) (w : ℕ → ℕ) → Table t w [] table.old → Table t w (tally t w codes.now).lets table.new }
{
    let mut sum = 0;
    let mut n: usize = 0;
    for k in codes {
        if *k < codes::LINE {
            sum = add(sum, word(table, *k as usize));
            continue;
        }
        if *k != codes::LET_LINE {
            sum = 0;
            continue;
        }
        memory::store(table, codes::A_LET as usize + n, sum);
        n += 1;
        sum = 0;
    }
}

// What the expression at a place counts.
fn count_at(codes: &[u64], from: usize, table: &[u64]) -> u64
    ensures { result ≡ capped (count_at (in_table table.now) codes.now from) }
{
    let mut sum = 0;
    for i in from..codes.len() {
        let k = codes[i];
        if codes::LINE <= k {
            return sum;
        }
        sum = add(sum, word(table, k as usize));
    }
    sum
}

// What the expressions count that end with the code `kind`, of the lines that are not left out.
fn count_kind(codes: &[u64], out: &[u64], kind: u64, table: &[u64]) -> u64
    ensures { result ≡ capped (count_kind (in_table table.now) codes.now out.now kind) }
{
    let mut sum = 0;
    let mut line = 0;
    let mut start = 0;
    for (i, code) in codes.iter().enumerate() {
        if *code < codes::LINE {
            continue;
        }
        if side_runs::is_one(out, 0, *code, kind, line) {
            sum = add(sum, count_at(codes, start, table));
        }
        line += 1;
        start = i + 1;
    }
    sum
}

// The right side: y of an inclusion, `[false]` of an empty claim, a1 of a ring claim; a0, the anys, and zero in a path claim.
fn right_side(d: Decision, own: u64, y: u64, test: u64, empty: u64) -> u64
    ensures { result ≡ capped (right_of d own y test empty) }
{
    if d.kind == codes::CLAIM_IRREFLEXIVE {
        return add(add(own, empty), 2);
    }
    let around = add(empty, add(2, test));
    if d.kind == codes::CLAIM_INCLUDE {
        return add(y, around);
    }
    add(test, around)
}

// What a decision counts, where a bracketed test counts `test`.
fn count(codes: &[u64], out: &[u64], d: Decision, test: u64) -> Sums
    ensures { result ≡ sums_of test codes.now out.now d }
{
    let mut table = [0u64; TABLE];
    start_table(test, &mut table);
    add_limits(codes, test, &mut table);
    count_lets(codes, &mut table);
    let own = count_kind(codes, out, codes::ASSUME_IRREFLEXIVE, &table);
    let empty = count_kind(codes, out, codes::ASSUME_EMPTY, &table);
    let y = count_at(codes, d.right, &table);
    Sums {
        left: count_at(codes, d.left, &table),
        right: right_side(d, own, y, test, empty),
        own,
    }
}

// Occurrences and leaves of the two sides of a decision, under the assumptions of the lines that are not in the set `out`: line l is bit l % 64 of
// word l / 64, and past its end no line is left out.
pub fn sizes_of(codes: &[u64], out: &[u64], d: Decision) -> Sizes
    ensures { result ≡ sizes_of out.now d codes.now }
{
    let o = count(codes, out, d, 0);
    let l = count(codes, out, d, 1);
    Sizes {
        ring: d.kind == codes::CLAIM_IRREFLEXIVE,
        left: Size {
            occurrences: o.left,
            leaves: l.left,
        },
        right: Size {
            occurrences: o.right,
            leaves: l.right,
        },
        own: l.own,
    }
}

// The right occurrences that a ring claim may have.
const MOST_RIGHT: u64 = layout::MOST_RIGHT as u64;

// The most occurrences of a right side.
fn right_limit(ring: bool) -> u64
    ensures { result ≡ cond ring MOST-RIGHT 64 }
{
    if ring { MOST_RIGHT } else { 64 }
}

// Whether a decision with these sizes is within the limits; else refusal 8.
pub fn within_limits(s: Sizes) -> bool
    ensures { result ≡ within_test s }
{
    if 64 < s.left.occurrences {
        return false;
    }
    if 512 < s.left.leaves {
        return false;
    }
    if right_limit(s.ring) < s.right.occurrences {
        return false;
    }
    if 512 < s.right.leaves {
        return false;
    }
    s.own <= 512
}
