// The two sides of a decision, on a table and the parts that wait in memory. (Document 01, "Words".)
#![tactic(auto)]

ghost use Rattle.std.specs.Prelude.{◌≡◌};
ghost use Rattle.memory.specs.Memory.{zeros};
ghost use Rattle.side_parts.specs.Machine.{machine_in};
ghost use Rattle.side_claim.specs.Sides.{start_of, left_end, claimed, is_ring, zero_set, zero_for, between, around, left_machine, besides, right_machine};
ghost use Rattle.side_tables.specs.Layout.{TABLE};

use side_runs::{run_from, run_union};
use side_stack::STACK;
use side_tables::{TABLE, Table};

// What is claimed: its kind, which is the code of a claim, where the claimed expression starts, and for an inclusion where the one starts that
// it is to lie in.
#[derive(Clone, Copy)]
pub struct Decision {
    pub kind: u64,
    pub left: usize,
    pub right: usize,
}

// Where the first expression starts that ends with the code k; 0 where there is none.
fn start_of(codes: &[u64], k: u64) -> usize
    ensures { result ≡ start_of k codes.now }
{
    let mut start = 0;
    for (i, code) in codes.iter().enumerate() {
        if *code < codes::LINE {
            continue;
        }
        if *code == k {
            return start;
        }
        start = i + 1;
    }
    0
}

// The code that the claimed expression of a claim of this kind ends with.
fn left_end(kind: u64) -> u64
    ensures { result ≡ left_end kind }
{
    if kind == codes::CLAIM_INCLUDE {
        codes::INCLUDED
    } else {
        kind
    }
}

// The claim of the query that the codes are.
pub fn claimed_in(codes: &[u64]) -> Decision
    ensures { result ≡ claimed codes.now }
{
    let kind = codes::claim_kind(codes);
    Decision {
        kind,
        left: start_of(codes, left_end(kind)),
        right: start_of(codes, codes::CLAIM_INCLUDE),
    }
}

// The left side, in a table that is clear: whoever lends it clears it once, also where nothing is built.
pub fn left_side(
    codes: &[u64],
    needs: &[u64],
    d: Decision,
    table: &mut Table,
    parts: &mut [u64; STACK],
)
    requires { table.old ≡ zeros TABLE }
    ensures { machine_in table.new parts.new ≡ left_machine codes.now needs.now d }
{
    side_stack::empty(parts);
    run_from(codes, needs, table, parts, d.left);
}

// The atoms that are words of a1, where some expression is assumed irreflexive. Which atoms are words does not depend on the occurrences, so none
// is added, and the table stays clear.
fn zero_of(codes: &[u64], needs: &[u64], table: &mut Table, parts: &mut [u64; STACK]) -> u64
    requires { table.old ≡ zeros TABLE }
    ensures { (result ≡ zero_set codes.now needs.now) × (table.new ≡ zeros TABLE) }
{
    side_stack::full(parts);
    run_union(codes, needs, codes::ASSUME_IRREFLEXIVE, table, parts);
    let a = side_stack::top(parts);
    a.null
}

// The atoms that are words of a1, for a path claim; a ring claim asks for none.
fn zero_for(
    codes: &[u64],
    needs: &[u64],
    ring: bool,
    table: &mut Table,
    parts: &mut [u64; STACK],
) -> u64
    requires { table.old ≡ zeros TABLE }
    ensures { (result ≡ zero_for codes.now needs.now ring) × (table.new ≡ zeros TABLE) }
{
    if ring {
        return 0;
    }
    if !side_relations::among(codes, codes::ASSUME_IRREFLEXIVE) {
        return 0;
    }
    zero_of(codes, needs, table, parts)
}

// Whether the claim is one of rings.
fn is_ring(d: Decision) -> bool
    ensures { result ≡ is_ring d }
{
    d.kind == codes::CLAIM_IRREFLEXIVE
}

// What any*;e;any* is united with: y of an inclusion, `[false]` of an empty claim, a1 of a ring claim.
fn beside(codes: &[u64], needs: &[u64], d: Decision, table: &mut Table, parts: &mut [u64; STACK])
    ensures { machine_in table.new parts.new
        ≡ besides codes.now needs.now d (machine_in table.old parts.old) }
{
    if is_ring(d) {
        run_union(codes, needs, codes::ASSUME_IRREFLEXIVE, table, parts);
        return;
    }
    if d.kind == codes::CLAIM_INCLUDE {
        run_from(codes, needs, table, parts, d.right);
        return;
    }
    side_parts::give(parts, 0);
}

// a0, and in a path claim `zero` with it, the set of the atoms that are words of a1.
fn inside(
    codes: &[u64],
    needs: &[u64],
    ring: bool,
    zero: u64,
    table: &mut Table,
    parts: &mut [u64; STACK],
)
    ensures { machine_in table.new parts.new
        ≡ between codes.now needs.now ring zero (machine_in table.old parts.old) }
{
    run_union(codes, needs, codes::ASSUME_EMPTY, table, parts);
    if !ring {
        side_parts::give(parts, zero);
        side_parts::unite(parts);
    }
}

// any*;e;any* on top of what it is united with, where e is a0, or a0 | zero.
fn put_around(
    codes: &[u64],
    needs: &[u64],
    ring: bool,
    zero: u64,
    table: &mut Table,
    parts: &mut [u64; STACK],
)
    ensures { machine_in table.new parts.new
        ≡ around codes.now needs.now ring zero (machine_in table.old parts.old) }
{
    side_parts::any_star(table, parts);
    inside(codes, needs, ring, zero, table, parts);
    side_parts::put_in_order(table, parts);
    side_parts::any_star(table, parts);
    side_parts::put_in_order(table, parts);
}

// The right side, in a table that is clear: y | any*;(a0 | zero);any*, or a1 | any*;a0;any*.
pub fn right_side(
    codes: &[u64],
    needs: &[u64],
    d: Decision,
    table: &mut Table,
    parts: &mut [u64; STACK],
)
    requires { table.old ≡ zeros TABLE }
    ensures { machine_in table.new parts.new ≡ right_machine codes.now needs.now d }
{
    let ring = is_ring(d);
    let zero = zero_for(codes, needs, ring, table, parts);
    side_stack::empty(parts);
    beside(codes, needs, d, table, parts);
    put_around(codes, needs, ring, zero, table, parts);
    side_parts::unite(parts);
}
