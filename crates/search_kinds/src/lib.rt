// Standings by the kind of the claim, path or ring. (Document 01, "Standings".) Of the words of a standing on its way those count that tell it
// from another: the first two of a path claim, and the first TOLD of a ring claim.
#![tactic(auto)]

ghost use Rattle.std.specs.Prelude.{◌≡◌, take};
ghost use Rattle.search_standings.specs.Systems.{width, begin_words, onward_words, finals_words};
ghost use Rattle.search_standings.specs.First.{first_or};

use search_standings::{Shape, Standing};
use side_tables::Table;

// The standing of a prefix of one relation.
pub fn begin(k: Shape, left: &Table, right: &Table, a: usize, r: usize, to: &mut Standing)
    ensures { take (width k.ring) to.new ≡ begin_words k left.now right.now (record { atom = a; relation = r }) }
{
    let n = k.right;
    if k.ring {
        search_ring::begin(left, right, n, a, r, to);
        return;
    }
    search_path::begin(left, right, a, r, to);
}

// The standing of a prefix one relation longer.
pub fn onward(
    k: Shape,
    left: &Table,
    right: &Table,
    from: &Standing,
    a: usize,
    r: usize,
    to: &mut Standing,
)
    ensures { take (width k.ring) to.new
        ≡ onward_words k left.now right.now (take (width k.ring) from.now) (record { atom = a; relation = r }) }
{
    if k.ring {
        search_ring::onward(left, right, from, a, r, to);
        return;
    }
    search_path::onward(left, right, from, a, r, to);
}

// The lowest atom with which the standing completes a refuting word, or 64.
pub fn first_final(k: Shape, left: &Table, right: &Table, s: &Standing) -> usize
    ensures { result ≡ first_or 64 (finals_words k left.now right.now (take (width k.ring) s.now)) }
{
    let n = k.right;
    let live = k.live;
    if k.ring {
        return search_cover::first_final(left, right, n, live, s);
    }
    search_path::first_final(left, right, live, s)
}
