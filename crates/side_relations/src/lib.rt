// What the lines of a query say of its relations and atoms, from its codes and what they need, as many as there are of both: where the step of each relation may start,
// stop and follow itself, which atoms are removed, and which are left. (Document 01, "The query" and "Words".)
#![tactic(auto)]

ghost use Rattle.std.specs.Prelude.{◌+◌, ◌≤◌, ◌^◌, min, ◌≡◌, cond, eqb, length};
ghost use Rattle.claims.specs.Query.{bit};
ghost use Rattle.kat.specs.Lists.{some};
ghost use Rattle.memory.specs.Memory.{words};
ghost use Rattle.side_items.specs.Items.{paired};
ghost use Rattle.side_relations.specs.Relations.{narrowed, limits_from, closed_with, closed_set, relation_at, relation_sets, removed_set, live_set};

// How many atoms the tests make, and no more than 64.
pub fn atom_count(tests: u64) -> usize
    ensures { result ≡ min (2 ^ tests) 64 }
{
    match tests {
        0 => 1,
        1 => 2,
        2 => 4,
        3 => 8,
        4 => 16,
        5 => 32,
        _ => 64,
    }
}

// One code: a `within` line of relation r keeps of the sets at r and at 16 + r only what is in x and in y.
fn narrow(limits: &mut [u64], code: u64, x: u64, y: u64)
    requires { length limits.old ≡ 32 }
    ensures { limits.new ≡ narrowed code x y limits.old }
{
    if code < codes::WITHIN_LINE {
        return;
    }
    if codes::CLOSED_LINE <= code {
        return;
    }
    let r = (code - codes::WITHIN_LINE) as usize;
    limits[r] = limits[r] & x;
    limits[r + 16] = limits[r + 16] & y;
}

// The value behind a code k, and another where that is not the code.
fn behind(code: u64, k: u64, a: u64, b: u64) -> u64
    ensures { result ≡ cond (eqb code k) a b }
{
    if code == k { a } else { b }
}

// All codes, one after another; x and y are the sets of the last two bracketed tests.
fn narrow_all(codes: &[u64], args: &[u64], limits: &mut [u64])
    requires { length limits.old ≡ 32 }
    ensures { limits.new ≡ limits_from 0 0 (paired codes.now args.now) limits.old }
{
    let mut x: u64 = 0;
    let mut y: u64 = 0;
    for (code, arg) in codes.iter().zip(args) {
        narrow(limits, *code, x, y);
        x = behind(*code, codes::TESTED, y, x);
        y = behind(*code, codes::TESTED, *arg, y);
    }
}

// Whether a code is among the codes.
pub fn among(codes: &[u64], k: u64) -> bool
    ensures { result ≡ some (λ c. eqb c k) codes.now }
{
    codes.contains(&k)
}

// The set s, and the relation whose `closed` line ends with the code, where it is such a code.
fn closed_with(s: u64, code: u64) -> u64
    ensures { result ≡ closed_with s code }
{
    if code < codes::CLOSED_LINE {
        return s;
    }
    if codes::CLOSED_END <= code {
        return s;
    }
    bits::with(s, (code - codes::CLOSED_LINE) as usize)
}

// The relations that the lines with these codes close.
pub fn closed_set(codes: &[u64]) -> u64
    ensures { result ≡ closed_set 0 codes.now }
{
    codes.iter().fold(0, |s, code| closed_with(s, *code))
}

// What stands at place i of the sets of the relations, where `closed` has the closed ones.
fn relation_at(closed: u64, limits: &[u64], i: usize) -> u64
    requires { (i ≤ 47) × (length limits.now ≡ 32) }
    ensures { result ≡ relation_at (λ k. bit k closed) limits.now i }
{
    if i < 32 {
        return limits[i];
    }
    if bits::member(closed, i - 32) {
        return limits[i - 32] & limits[i - 16];
    }
    0
}

// The sets of the relations, one after another.
fn relation_words(closed: u64, limits: &[u64], rels: &mut [u64])
    requires { (length limits.now ≡ 32) × (length rels.old ≤ 48) }
    ensures { rels.new ≡ words (length rels.old) (relation_at (λ k. bit k closed) limits.now) }
{
    for (i, set) in rels.iter_mut().enumerate() {
        *set = relation_at(closed, limits, i);
    }
}

// The sets of the relations: at r where the step of relation r may start, at 16 + r where it may stop, at 32 + r where it may follow itself.
pub fn relation_sets(codes: &[u64], args: &[u64], rels: &mut [u64; codes::RELATION_SETS])
    ensures { rels.new ≡ relation_sets (paired codes.now args.now) }
{
    let mut limits = [bits::ALL; 32];
    narrow_all(codes, args, &mut limits);
    let n = codes.len().min(args.len());
    let closed = closed_set(&codes[..n]);
    relation_words(closed, &limits, rels);
}

// The atoms that the `never` lines remove.
pub fn removed_set(codes: &[u64], args: &[u64]) -> u64
    ensures { result ≡ removed_set (paired codes.now args.now) }
{
    codes.iter().zip(args).fold(
        0,
        |s, (code, arg)| s | behind(*code, codes::NEVER_LINE, *arg, 0),
    )
}

// Of the atoms of the tests those that are left.
pub fn live_set(tests: u64, removed: u64) -> u64
    ensures { result ≡ live_set tests removed }
{
    let n = atom_count(tests);
    bits::below(n) & (bits::ALL - removed)
}
