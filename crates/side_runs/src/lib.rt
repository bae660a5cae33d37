// The codes of an expression, one after another, on its table and the parts that wait in memory; a let is built anew where it is named.
// (Document 01, "Words": lets are expanded.) A program is the codes of a query and `needs`, in which stand behind one another what each code
// needs, the sets of the relations and the set of the lines that are left out of the assumptions.
#![tactic(auto)]

ghost use Rattle.std.specs.Prelude.{ℕ, ◌+◌, ◌<◌, ◌^◌, ◌≡◌, ◌&&◌, List, eqb, length};
ghost use Rattle.side_items.specs.Items.{starts_of};
ghost use Rattle.side_parts.specs.Machine.{machine_in};
ghost use Rattle.side_runs.specs.Program.{items_in, sets_in, counts_from, counts_in};
ghost use Rattle.side_runs.specs.Execution.{execute_all, united_times, execute_union};
ghost use Rattle.side_runs.specs.inner.Running.{Skipped, LineRan, ItemRan};

use memory::word;
use side_parts::step;
use side_stack::STACK;
use side_tables::{TABLE, Table};

// The first place from pc on at which no operator of a T stands.
fn skip_operators(codes: &[u64], pc: usize) -> usize
    ensures { Skipped codes.now pc result }
{
    for i in pc..codes.len() {
        if codes::TESTED <= codes[i] {
            return i;
        }
    }
    pc.max(codes.len())
}

// The first place from pc on at which no code of a T stands.
fn skip_tests(codes: &[u64], pc: usize) -> usize
    ensures { Skipped codes.now pc result }
{
    let mut i = skip_operators(codes, pc);
    while i < codes.len() {
        if !side_items::of_test(codes[i]) {
            return i;
        }
        i = skip_operators(codes, i + 1);
    }
    i
}

// The items from a place to the end of its line; a let is built from the place where its line starts, which comes before. No more than 33
// of these calls stand in one another, since a let names only lets before it.
#[cycle(run_from_run_item)]
pub fn run_from(
    codes: &[u64],
    needs: &[u64],
    table: &mut Table,
    parts: &mut [u64; STACK],
    from: usize,
)
    ensures { LineRan codes.now needs.now from
        (machine_in table.old parts.old) (machine_in table.new parts.new) }
{
    let mut pc = skip_tests(codes, from);
    while pc < codes.len() {
        if codes::LINE <= codes[pc] {
            return;
        }
        run_item(codes, needs, table, parts, from, pc);
        pc = skip_tests(codes, pc + 1);
    }
}

// The item at one place of a line that starts at `from`.
#[cycle(run_from_run_item)]
fn run_item(
    codes: &[u64],
    needs: &[u64],
    table: &mut Table,
    parts: &mut [u64; STACK],
    from: usize,
    pc: usize,
)
    requires { pc < length codes.now }
    ensures { ItemRan codes.now needs.now from pc
        (machine_in table.old parts.old) (machine_in table.new parts.new) }
{
    let code = codes[pc];
    let arg = word(needs, pc);
    let n = codes.len().min(needs.len());
    if code < codes::A_LET {
        step(code, arg, &needs[n..], table, parts);
        return;
    }
    if codes::LETS_END <= code {
        step(code, arg, &needs[n..], table, parts);
        return;
    }
    let start = arg as usize;
    if from <= start {
        return;
    }
    run_from(codes, needs, table, parts, start);
}

// Whether the expression that ends with `code` in line l is one of those that end with `kind` and are not left out; the set of the lines that are
// stands from the place `from` on. What is required is no limit: no memory has so many words.
pub fn is_one(words: &[u64], from: usize, code: u64, kind: u64, l: usize) -> bool
    requires { from + l < 2 ^ 64 }
    ensures { result ≡ (eqb code kind && counts_from from words.now l) }
{
    if code == kind {
        return !bits::member(word(words, from + l / 64), l % 64);
    }
    false
}

// The expressions that end with the code `kind`, of the lines that count as assumptions, one after another, and how many there were.
fn run_kind(
    codes: &[u64],
    needs: &[u64],
    kind: u64,
    table: &mut Table,
    parts: &mut [u64; STACK],
) -> usize
    ensures { (result ≡ length (starts_of (counts_in codes.now needs.now) kind codes.now))
        × (machine_in table.new parts.new
        ≡ execute_all (sets_in codes.now needs.now) (items_in codes.now needs.now)
        (starts_of (counts_in codes.now needs.now) kind codes.now)
        (machine_in table.old parts.old)) }
{
    let mut count = 0;
    let mut line = 0;
    let mut start = 0;
    for (i, code) in codes.iter().enumerate() {
        if *code < codes::LINE {
            continue;
        }
        if is_one(needs, codes.len() + codes::RELATION_SETS, *code, kind, line) {
            run_from(codes, needs, table, parts, start);
            count += 1;
        }
        line += 1;
        start = i + 1;
    }
    count
}

// The two parts on top united, n times.
fn unite_times(parts: &mut [u64; STACK], n: usize)
    ensures { (t : List ℕ) → machine_in t parts.new ≡ united_times n (machine_in t parts.old) }
{
    for _ in 0..n {
        side_parts::unite(parts);
    }
}

// The expressions that end with the code `kind`, of the lines that count as assumptions, united; of none `[false]`.
pub fn run_union(
    codes: &[u64],
    needs: &[u64],
    kind: u64,
    table: &mut Table,
    parts: &mut [u64; STACK],
)
    ensures { machine_in table.new parts.new
        ≡ execute_union (sets_in codes.now needs.now) (items_in codes.now needs.now)
        (starts_of (counts_in codes.now needs.now) kind codes.now)
        (machine_in table.old parts.old) }
{
    let n = run_kind(codes, needs, kind, table, parts);
    side_parts::give(parts, 0);
    unite_times(parts, n);
}
