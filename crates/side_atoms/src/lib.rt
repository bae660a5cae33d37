// The set of the atoms that satisfy a T, from the codes of the T: a loop over the codes with a stack of sets. (Document 01, "The query"
// and "Words".) A set of atoms is a word, bit a for atom a.
#![tactic(auto)]

ghost use Rattle.std.specs.Prelude.{◌≤◌, ◌≡◌, [], length};
ghost use Rattle.std.proofs.Math.Seq.{slice};
ghost use Rattle.memory.specs.Memory.{zeros};
ghost use Rattle.side_atoms.specs.Tests.{top, push, stacked, holding, test_step, run_test, test_set};

// What is on top of a stack of height n.
fn peek(stack: &[u64], n: usize) -> u64
    requires { n ≤ length stack.now }
    ensures { result ≡ top (stacked stack.now n) }
{
    if 0 < n { stack[n - 1] } else { 0 }
}

// A set put on top of a stack of height n, and the new height.
fn put(stack: &mut [u64], n: usize, v: u64) -> usize
    requires { n ≤ length stack.old }
    ensures { (result ≤ length stack.new) × (stacked stack.new result ≡ push (length stack.old) v (stacked stack.old n)) }
{
    if n < stack.len() {
        stack[n] = v;
        n + 1
    } else {
        n
    }
}

// The atoms at which test i holds; there are 6 tests.
pub fn holding_atoms(i: u64) -> u64
    ensures { result ≡ holding i }
{
    match i {
        0 => 0xaaaa_aaaa_aaaa_aaaa,
        1 => 0xcccc_cccc_cccc_cccc,
        2 => 0xf0f0_f0f0_f0f0_f0f0,
        3 => 0xff00_ff00_ff00_ff00,
        4 => 0xffff_0000_ffff_0000,
        5 => 0xffff_ffff_0000_0000,
        _ => 0,
    }
}

// One code on a stack of height n, and the new height.
fn test_step(stack: &mut [u64], n: usize, code: u64) -> usize
    requires { n ≤ length stack.old }
    ensures { (result ≤ length stack.new) × (stacked stack.new result ≡ test_step (length stack.old) code (stacked stack.old n)) }
{
    let a = peek(stack, n);
    let m = n.saturating_sub(1);
    let b = peek(stack, m);
    match code {
        codes::TRUE => put(stack, n, bits::ALL),
        codes::FALSE => put(stack, n, 0),
        codes::OR => put(stack, m.saturating_sub(1), b | a),
        codes::AND => put(stack, m.saturating_sub(1), b & a),
        codes::NOT => put(stack, m, bits::ALL - a),
        codes::A_TEST..=codes::LAST_TEST => put(stack, n, holding_atoms(code - codes::A_TEST)),
        _ => n,
    }
}

// The codes from one place to before another, one after another, and what is on top at the end.
fn run(codes: &[u64], from: usize, to: usize, stack: &mut [u64]) -> u64
    ensures { result ≡ top (run_test (length stack.old) (slice from to codes.now) []) }
{
    let end = to.min(codes.len());
    let mut n: usize = 0;
    for i in from..end {
        n = test_step(stack, n, codes[i]);
    }
    peek(stack, n)
}

// The set that the codes from one place to before another give. The stack has room for as many sets as there are codes, and is left clear.
pub fn test_atoms(codes: &[u64], from: usize, to: usize, stack: &mut [u64]) -> u64
    requires { (length (slice from to codes.now) ≤ length stack.old) × (length (slice from to codes.now) ≤ 4096) }
    ensures { (result ≡ test_set (slice from to codes.now)) × (stack.new ≡ zeros (length stack.old)) }
{
    let set = run(codes, from, to, stack);
    memory::clear(stack);
    set
}
