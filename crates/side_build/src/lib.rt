// The tables of the two sides of a decision, from a program; and of the claim of a query, from its codes. (Document 01, "Words" and
// "Standings".)
#![tactic(auto)]

ghost use Rattle.std.specs.Prelude.{◌+◌, ◌≤◌, min, ◌≡◌, length, take};
ghost use Rattle.memory.specs.Memory.{zeros};
ghost use Rattle.side_items.specs.Items.{items_of};
ghost use Rattle.side_relations.specs.Relations.{removed_set, live_set};
ghost use Rattle.side_build.specs.Built.{needs_of, table_at, left_of, right_of, counted_in, left_table, right_table, built_from};
ghost use Rattle.side_tables.specs.Layout.{TABLE};

use side_claim::Decision;
use side_stack::STACK;
use side_tables::{TABLE, Table};

// The occurrences of each side.
#[derive(Clone, Copy)]
pub struct Counted {
    pub left: usize,
    pub right: usize,
}

// The occurrences of each side, and the set of the atoms that no `never` removes.
#[derive(Clone, Copy)]
pub struct Built {
    pub left: usize,
    pub right: usize,
    pub live: u64,
}

// The table of the expression that starts at a place of a program.
pub fn build_at(codes: &[u64], needs: &[u64], from: usize, table: &mut Table)
    ensures { table.new ≡ table_at codes.now needs.now from }
{
    let mut parts = [0u64; STACK];
    side_parts::nothing(table, &mut parts);
    side_runs::run_from(codes, needs, table, &mut parts, from);
    side_parts::tell(table, &parts);
}

// The tables of the two sides of a decision, and the occurrences of each, in tables that are clear.
fn fill_sides(
    codes: &[u64],
    needs: &[u64],
    d: Decision,
    left: &mut Table,
    right: &mut Table,
) -> Counted
    requires { (left.old ≡ zeros TABLE) × (right.old ≡ zeros TABLE) }
    ensures { (result ≡ counted_in codes.now needs.now d)
        × (left.new ≡ left_of codes.now needs.now d)
        × (right.new ≡ right_of codes.now needs.now d) }
{
    let mut parts = [0u64; STACK];
    side_claim::left_side(codes, needs, d, left, &mut parts);
    side_parts::tell(left, &parts);
    let m = side_stack::used(&parts);
    side_claim::right_side(codes, needs, d, right, &mut parts);
    side_parts::tell(right, &parts);
    Counted {
        left: m,
        right: side_stack::used(&parts),
    }
}

// The tables of the two sides of a decision, and the occurrences of each.
pub fn build_sides(
    codes: &[u64],
    needs: &[u64],
    d: Decision,
    left: &mut Table,
    right: &mut Table,
) -> Counted
    ensures { (result ≡ counted_in codes.now needs.now d)
        × (left.new ≡ left_of codes.now needs.now d)
        × (right.new ≡ right_of codes.now needs.now d) }
{
    memory::clear(left);
    memory::clear(right);
    fill_sides(codes, needs, d, left, right)
}

// What the codes need, and the sets of their relations.
fn prepare(codes: &[u64], needs: &mut [u64])
    requires { (length needs.old ≡ length codes.now + 48) × (length codes.now ≤ 4096) }
    ensures { needs.new ≡ needs_of codes.now }
{
    let n = codes.len();
    side_items::find_args(codes, &mut needs[..n]);
    let mut rels = [0u64; codes::RELATION_SETS];
    side_relations::relation_sets(codes, &needs[..n], &mut rels);
    memory::copy(&rels, &mut needs[n..]);
}

// The atoms that are left.
fn live_of(codes: &[u64], needs: &[u64], tests: u64) -> u64
    requires { needs.now ≡ needs_of codes.now }
    ensures { result ≡ live_set tests (removed_set (items_of codes.now)) }
{
    let removed = side_relations::removed_set(codes, &needs[..codes.len()]);
    side_relations::live_set(tests, removed)
}

// All of it, with memory lent for the program.
fn build_in(
    codes: &[u64],
    needs: &mut [u64],
    tests: u64,
    left: &mut Table,
    right: &mut Table,
) -> Built
    requires { (length needs.old ≡ length codes.now + 48) × (length codes.now ≤ 4096) × (left.old ≡ zeros TABLE) × (right.old ≡ zeros TABLE) }
    ensures { (result ≡ built_from tests codes.now) × (left.new ≡ left_table codes.now)
        × (right.new ≡ right_table codes.now) }
{
    prepare(codes, needs);
    let d = side_claim::claimed_in(codes);
    let c = fill_sides(codes, needs, d, left, right);
    Built {
        left: c.left,
        right: c.right,
        live: live_of(codes, needs, tests),
    }
}

// The same with memory for N words, which are enough for what the codes need and the sets of their relations.
fn build_with<const N: usize>(
    codes: &[u64],
    tests: u64,
    left: &mut Table,
    right: &mut Table,
) -> Built
    requires { (length codes.now + 48 ≤ N) × (N ≤ 4144) × (left.old ≡ zeros TABLE) × (right.old ≡ zeros TABLE) }
    ensures { (result ≡ built_from tests codes.now) × (left.new ≡ left_table codes.now)
        × (right.new ≡ right_table codes.now) }
{
    let n = codes.len() + codes::RELATION_SETS;
    let mut needs = [0u64; N];
    build_in(codes, &mut needs[..n], tests, left, right)
}

// The tables of the two sides of the claim of the first n codes, of which no more than 4,096 count, and the atoms of so many tests that are left.
// Clear tables are asked for, since whoever lends them has to clear them where a query is refused.
pub fn build(codes: &[u64], n: usize, tests: u64, left: &mut Table, right: &mut Table) -> Built
    requires { (left.old ≡ zeros TABLE) × (right.old ≡ zeros TABLE) }
    ensures { (result ≡ built_from tests (take (min n 4096) codes.now))
        × (left.new ≡ left_table (take (min n 4096) codes.now))
        × (right.new ≡ right_table (take (min n 4096) codes.now)) }
{
    let m = n.min(4096).min(codes.len());
    let part = &codes[..m];
    if m <= 464 {
        return build_with::<512>(part, tests, left, right);
    }
    build_with::<4144>(part, tests, left, right)
}
