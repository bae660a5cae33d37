// One code of an expression, on its table and the parts that wait in memory. (Document 01, "Standings".)
#![tactic(auto)]

ghost use Rattle.std.specs.Prelude.{ℕ, ◌+◌, ◌^◌, ◌<◌, ◌≡◌, List, get_or};
ghost use Rattle.side_parts.specs.Machine.{machine_in, given, fresh, united, in_order, again, optional, any_star, stepped, nothing_built, told_table};

use memory::word;
use side_stack::{Part, STACK};
use side_tables::{TABLE, Table};

// A bracketed test, whose words are the atoms of the set x.
pub fn give(parts: &mut [u64; STACK], x: u64)
    ensures { (t : List ℕ) → machine_in t parts.new ≡ given x (machine_in t parts.old) }
{
    let low = side_stack::used(parts);
    side_stack::push(
        parts,
        Part {
            low,
            null: x,
            looped: true,
        },
    );
}

// `|`
pub fn unite(parts: &mut [u64; STACK])
    ensures { (t : List ℕ) → machine_in t parts.new ≡ united (machine_in t parts.old) }
{
    let a = side_stack::top(parts);
    let b = side_stack::second(parts);
    side_stack::replace_two(
        parts,
        Part {
            low: b.low,
            null: b.null | a.null,
            looped: false,
        },
    );
}

// `?`
fn make_optional(parts: &mut [u64; STACK])
    ensures { (t : List ℕ) → machine_in t parts.new ≡ optional (machine_in t parts.old) }
{
    let a = side_stack::top(parts);
    side_stack::replace(
        parts,
        Part {
            low: a.low,
            null: bits::ALL,
            looped: a.looped,
        },
    );
}

// A new occurrence: at the atoms of f it may be first, at those of l last, at those of g after itself; it reads the relations of s.
fn add_fresh(table: &mut Table, parts: &mut [u64; STACK], f: u64, l: u64, g: u64, s: u64)
    ensures { machine_in table.new parts.new ≡ fresh f l g s (machine_in table.old parts.old) }
{
    let low = side_stack::used(parts);
    side_tables::new_occurrence(table, low, f, l, g, s);
    side_stack::push(
        parts,
        Part {
            low,
            null: 0,
            looped: false,
        },
    );
    side_stack::one_more(parts);
}

// `;`
pub fn put_in_order(table: &mut Table, parts: &mut [u64; STACK])
    ensures { machine_in table.new parts.new ≡ in_order (machine_in table.old parts.old) }
{
    let a = side_stack::top(parts);
    let b = side_stack::second(parts);
    let hi = side_stack::used(parts);
    side_tables::sequence(table, b.low, a.low, hi, b.null, a.null);
    side_stack::replace_two(
        parts,
        Part {
            low: b.low,
            null: b.null & a.null,
            looped: false,
        },
    );
}

// `+`
fn repeat(table: &mut Table, parts: &mut [u64; STACK])
    ensures { machine_in table.new parts.new ≡ again (machine_in table.old parts.old) }
{
    let a = side_stack::top(parts);
    if !a.looped {
        let hi = side_stack::used(parts);
        side_tables::iterate(table, a.low, hi);
        side_stack::replace(
            parts,
            Part {
                low: a.low,
                null: a.null,
                looped: true,
            },
        );
    }
}

// The step of relation r.
fn add_relation(r: usize, rels: &[u64], table: &mut Table, parts: &mut [u64; STACK])
    requires { r < 16 }
    ensures { machine_in table.new parts.new
        ≡ fresh (get_or rels.now r 0) (get_or rels.now (r + 16) 0) (get_or rels.now (r + 32) 0) (2 ^ r)
        (machine_in table.old parts.old) }
{
    let f = word(rels, r);
    let l = word(rels, r + 16);
    let g = word(rels, r + 32);
    let s = bits::with(0, r);
    add_fresh(table, parts, f, l, g, s);
}

// any*
pub fn any_star(table: &mut Table, parts: &mut [u64; STACK])
    ensures { machine_in table.new parts.new ≡ any_star (machine_in table.old parts.old) }
{
    add_fresh(table, parts, bits::ALL, bits::ALL, 0, 65535);
    repeat(table, parts);
    make_optional(parts);
}

// One code with what it needs.
pub fn step(code: u64, arg: u64, rels: &[u64], table: &mut Table, parts: &mut [u64; STACK])
    ensures { machine_in table.new parts.new
        ≡ stepped rels.now code arg (machine_in table.old parts.old) }
{
    match code {
        codes::TESTED => give(parts, arg),
        codes::UNION => unite(parts),
        codes::SEQUENCE => put_in_order(table, parts),
        codes::STAR => {
            repeat(table, parts);
            make_optional(parts);
        }
        codes::PLUS => repeat(table, parts),
        codes::OPTIONAL => make_optional(parts),
        codes::ANY => add_fresh(table, parts, bits::ALL, bits::ALL, 0, 65535),
        codes::A_RELATION..=codes::LAST_RELATION => {
            add_relation((code - codes::A_RELATION) as usize, rels, table, parts)
        }
        _ => {}
    }
}

// Nothing built: the table is empty, and no part waits.
pub fn nothing(table: &mut Table, parts: &mut [u64; STACK])
    ensures { machine_in table.new parts.new ≡ nothing_built }
{
    memory::clear(table);
    side_stack::empty(parts);
}

// The table also tells the atoms that are words of the part on top.
pub fn tell(table: &mut Table, parts: &[u64; STACK])
    ensures { table.new ≡ told_table (machine_in table.old parts.now) }
{
    let a = side_stack::top(parts);
    memory::store(table, side_tables::NULL, a.null);
}
