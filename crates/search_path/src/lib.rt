// Path standings in memory: the first two of its words, P and then S, bit p - 1 for occurrence p. (Document 01, "Standings".) The standing of
// a prefix of one relation, that of a prefix one relation longer, and the lowest atom that completes a refuting word.
#![tactic(auto)]

ghost use Rattle.std.specs.Prelude.{◌≤◌, ◌≡◌, not, ◌&&◌, [], ◌∷◌, length, take, drop};
ghost use Rattle.standings.specs.Steps.{ends_set};
ghost use Rattle.search_standings.specs.Layout.{PATH-TOLD};
ghost use Rattle.search_standings.specs.PathWords.{path_begin, path_onward, path_finals};
ghost use Rattle.search_standings.specs.First.{first_or, first_alone};

use memory::word;
use search_standings::Standing;
use search_steps::{ends_set, step_from, step_set};
use side_tables::{NULL, Table};

// The two words of a standing, written.
fn put(to: &mut [u64], p: u64, s: u64)
    requires { PATH-TOLD ≤ length to.old }
    ensures { (take PATH-TOLD to.new ≡ p ∷ s ∷ []) × (drop PATH-TOLD to.new ≡ drop PATH-TOLD to.old) }
{
    to[0] = p;
    to[1] = s;
}

// The standing of a prefix of one relation.
pub fn begin(left: &Table, right: &Table, a: usize, r: usize, to: &mut Standing)
    ensures { (take PATH-TOLD to.new ≡ path_begin left.now right.now (record { atom = a; relation = r }))
        × (drop PATH-TOLD to.new ≡ drop PATH-TOLD to.old) }
{
    let p = step_from(left, 0, a, r);
    let s = step_from(right, 0, a, r);
    put(to, p, s);
}

// The standing of a prefix one relation longer.
pub fn onward(left: &Table, right: &Table, from: &Standing, a: usize, r: usize, to: &mut Standing)
    ensures { (take PATH-TOLD to.new ≡ path_onward left.now right.now (take PATH-TOLD from.now) (record { atom = a; relation = r }))
        × (drop PATH-TOLD to.new ≡ drop PATH-TOLD to.old) }
{
    let p = step_set(left, from[0], a, r);
    let s = step_set(right, from[1], a, r);
    put(to, p, s);
}

// Whether at atom a a left word may end and no right word, where one of p was read last on the left and one of s on the right.
fn refutes(left: &Table, right: &Table, p: u64, s: u64, a: usize) -> bool
    ensures { result ≡ (ends_set left.now p a && not (ends_set right.now s a)) }
{
    if ends_set(left, p, a) {
        !ends_set(right, s, a)
    } else {
        false
    }
}

// The lowest live atom with which the standing completes a refuting word, or 64.
pub fn first_final(left: &Table, right: &Table, live: u64, at: &Standing) -> usize
    ensures { result ≡ first_or 64 (path_finals left.now right.now live (take PATH-TOLD at.now)) }
{
    let p = at[0];
    let s = at[1];
    let mut rest = live;
    while rest != 0 {
        let a = u64::trailing_zeros(rest) as usize;
        if refutes(left, right, p, s, a) {
            return a;
        }
        rest = rest & (rest - 1);
    }
    64
}

// The lowest live atom that is a refuting word of length 0, or 64.
pub fn first_alone(left: &Table, right: &Table, live: u64) -> usize
    ensures { result ≡ first_alone left.now right.now live }
{
    let yes = word(left, NULL);
    let no = word(right, NULL);
    u64::trailing_zeros(live & (yes & (bits::ALL - no))) as usize
}
