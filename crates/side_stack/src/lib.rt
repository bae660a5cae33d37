// The parts of an expression that wait while its table is built, in lent memory: how many occurrences there are, how many parts wait, and two
// words for each part. (Document 01, "Standings".)
#![tactic(auto)]

ghost use Rattle.std.specs.Prelude.{◌+◌, ◌*◌, ◌^◌, ◌≤◌, ◌<◌, min, ◌≡◌, cond, [], length};
ghost use Rattle.side_stack.specs.Stack.{top_part, under_part, push_part, parts_in, used_in, height_in, stack_in};

use memory::word;

// Words of the memory, and how many parts can wait: a side has no more than 512 leaves.
pub const STACK: usize = 1090;

const MOST_PARTS: usize = 544;

// A part: how many occurrences stand before it, the set of the atoms that are words of it, and whether it is known that every one of its
// occurrences that may be first may follow every one that may be last.
#[derive(Clone, Copy)]
pub struct Part {
    pub low: usize,
    pub null: u64,
    pub looped: bool,
}

// How many occurrences there are.
pub fn used(parts: &[u64; STACK]) -> usize
    ensures { result ≡ used_in parts.now }
{
    (word(parts, 0) as usize).min(64)
}

// How many parts wait.
fn height(parts: &[u64; STACK]) -> usize
    ensures { result ≡ height_in parts.now }
{
    (word(parts, 1) as usize).min(MOST_PARTS)
}

// The part on top of n parts.
fn part_at(parts: &[u64], n: usize) -> Part
    requires { n ≤ 544 }
    ensures { (result ≡ top_part (parts_in parts.now n)) × (result.low < 2 ^ 63) }
{
    if 0 < n {
        let w = word(parts, 2 * n);
        return Part {
            low: (w / 2) as usize,
            null: word(parts, 2 * n + 1),
            looped: w % 2 == 1,
        };
    }
    Part {
        low: 0,
        null: 0,
        looped: true,
    }
}

// The part on top.
pub fn top(parts: &[u64; STACK]) -> Part
    ensures { (result ≡ top_part (stack_in parts.now)) × (result.low < 2 ^ 63) }
{
    part_at(parts, height(parts))
}

// The part under the one on top.
pub fn second(parts: &[u64; STACK]) -> Part
    ensures { (result ≡ top_part (under_part (stack_in parts.now))) × (result.low < 2 ^ 63) }
{
    part_at(parts, height(parts).saturating_sub(1))
}

// Twice the occurrences before a part, with 1 where it is looped.
fn mark_of(low: usize, looped: bool) -> u64
    requires { low < 2 ^ 63 }
    ensures { result ≡ low * 2 + cond looped 1 0 }
{
    (low as u64) * 2 + u64::from(looped)
}

// The n lowest parts stay, and this one is put on top of them.
fn put(parts: &mut [u64], n: usize, part: Part)
    requires { (length parts.old ≡ 1090) × (n ≤ 544) × (part.low < 2 ^ 63) }
    ensures { (used_in parts.new ≡ used_in parts.old) × (stack_in parts.new ≡ push_part part (parts_in parts.old n)) }
{
    if n < MOST_PARTS {
        let w = mark_of(part.low, part.looped);
        parts[2 * n + 2] = w;
        parts[2 * n + 3] = part.null;
        parts[1] = (n + 1) as u64;
    } else {
        parts[1] = n as u64;
    }
}

// A part put on top.
pub fn push(parts: &mut [u64; STACK], part: Part)
    requires { part.low < 2 ^ 63 }
    ensures { (used_in parts.new ≡ used_in parts.old) × (stack_in parts.new ≡ push_part part (stack_in parts.old)) }
{
    let n = height(parts);
    put(parts, n, part);
}

// A part put in the place of the one on top.
pub fn replace(parts: &mut [u64; STACK], part: Part)
    requires { part.low < 2 ^ 63 }
    ensures { (used_in parts.new ≡ used_in parts.old) × (stack_in parts.new ≡ push_part part (under_part (stack_in parts.old))) }
{
    let n = height(parts);
    put(parts, n.saturating_sub(1), part);
}

// A part put in the place of the two on top.
pub fn replace_two(parts: &mut [u64; STACK], part: Part)
    requires { part.low < 2 ^ 63 }
    ensures { (used_in parts.new ≡ used_in parts.old) × (stack_in parts.new ≡ push_part part (under_part (under_part (stack_in parts.old)))) }
{
    let n = height(parts);
    put(parts, n.saturating_sub(2), part);
}

// One occurrence more, up to 64.
pub fn one_more(parts: &mut [u64; STACK])
    ensures { (used_in parts.new ≡ min (used_in parts.old + 1) 64) × (stack_in parts.new ≡ stack_in parts.old) }
{
    let n = used(parts);
    memory::store(parts, 0, (n + 1) as u64);
}

// No part waits, and there are n occurrences, up to 64.
fn restart(parts: &mut [u64; STACK], n: u64)
    ensures { (used_in parts.new ≡ min n 64) × (stack_in parts.new ≡ []) }
{
    memory::store(parts, 0, n);
    memory::store(parts, 1, 0);
}

// No part waits, and there is no occurrence.
pub fn empty(parts: &mut [u64; STACK])
    ensures { (used_in parts.new ≡ 0) × (stack_in parts.new ≡ []) }
{
    restart(parts, 0);
}

// No part waits, and there are as many occurrences as there can be: what is built now adds none.
pub fn full(parts: &mut [u64; STACK])
    ensures { (used_in parts.new ≡ 64) × (stack_in parts.new ≡ []) }
{
    restart(parts, 64);
}
