// What each code of a query needs: the set of a bracketed test, and the start of a let's line. (Document 01, "The query" and "Words".)
#![tactic(auto)]

ghost use Rattle.std.specs.Prelude.{◌+◌, ◌≤◌, ◌<◌, ◌≡◌, cond, leb, length};
ghost use Rattle.std.proofs.Math.Seq.{slice};
ghost use Rattle.codes.specs.Codes.{LINE};
ghost use Rattle.side_atoms.specs.Tests.{test_set};
ghost use Rattle.side_items.specs.Items.{of_test, arg_of, args_of};
ghost use Rattle.side_items.specs.inner.Blank.{Blank};

// Whether a code is one of a T.
pub fn of_test(k: u64) -> bool
    ensures { result ≡ of_test k }
{
    if k < codes::TESTED {
        return true;
    }
    if k < codes::A_TEST {
        return false;
    }
    k < codes::A_RELATION
}

// The set of the T whose codes are those from one place to before another. They need nothing themselves, so what is 0 for them is room for the
// sets, and is 0 again.
fn set_before(codes: &[u64], from: usize, to: usize, args: &mut [u64]) -> u64
    requires { (from ≤ to) × (to ≤ length args.old) × (to ≤ 4096) × Blank args.old from to }
    ensures { (result ≡ test_set (slice from to codes.now)) × (args.new ≡ args.old) }
{
    side_atoms::test_atoms(codes, from, to, &mut args[from..to])
}

// What the code k needs, where the codes of the T before it are those from one place to before another.
fn arg_of(
    codes: &[u64],
    from: usize,
    to: usize,
    args: &mut [u64],
    starts: &[u64; 32],
    k: u64,
) -> u64
    requires { (from ≤ to) × (to ≤ length args.old) × (to ≤ 4096) × Blank args.old from to }
    ensures { (result ≡ arg_of (record { at = 0; line = 0; pending = slice from to codes.now; starts = starts.now }) k)
        × (args.new ≡ args.old) }
{
    if k == codes::TESTED {
        return set_before(codes, from, to, args);
    }
    if k == codes::NEVER_LINE {
        return set_before(codes, from, to, args);
    }
    if k < codes::A_LET {
        return 0;
    }
    if k < codes::LETS_END {
        return starts[(k - codes::A_LET) as usize];
    }
    0
}

// Where the line starts, behind the code k at place i.
fn line_after(line: usize, i: usize, k: u64) -> usize
    requires { i < 4096 }
    ensures { result ≡ cond (leb LINE k) (i + 1) line }
{
    if codes::LINE <= k { i + 1 } else { line }
}

// Where the codes of a T just before start, behind the code k at place i.
fn from_after(from: usize, i: usize, k: u64) -> usize
    requires { i < 4096 }
    ensures { result ≡ cond (of_test k) from (i + 1) }
{
    if of_test(k) { from } else { i + 1 }
}

// What each code needs: the set of a test at 6 and 131, the start of its line for a let.
pub fn find_args(codes: &[u64], args: &mut [u64])
    requires { (length args.old ≡ length codes.now) × (length codes.now ≤ 4096) }
    ensures { args.new ≡ args_of codes.now }
{
    let mut starts = [0u64; codes::MOST_LETS];
    let mut line: usize = 0;
    let mut from: usize = 0;
    let mut lets: usize = 0;
    for (i, k) in codes.iter().enumerate() {
        let x = arg_of(codes, from, i, args, &starts, *k);
        args[i] = x;
        codes::keep_let(&mut starts, *k, lets, line as u64);
        lets = codes::lets_after(lets, *k);
        line = line_after(line, i, *k);
        from = from_after(from, i, *k);
    }
}
