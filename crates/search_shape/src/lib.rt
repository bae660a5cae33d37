// What a search is given, by the facts of its decision: its shape, the letters that it tries, and how much working memory it needs. (Document
// 01, "Standings", and "Refusals with an example each", 9.) Level 1 of a ring claim tries all letters, and else the atoms that are alike are
// tried once. The needed words are cleared behind a search.
#![tactic(auto)]

ghost use Rattle.std.specs.Prelude.{ℕ, ◌+◌, ◌*◌, ◌≤◌, ◌<◌, ◌≡◌, cond, List, length};
ghost use Rattle.claims.specs.Calls.{cleared};
ghost use Rattle.search_alike.specs.Masks.{masks_of};
ghost use Rattle.layout.specs.Layout.{RING-WORDS, MOST-STANDINGS};
ghost use Rattle.search_shape.specs.inner.Memory.{room_for};
ghost use Rattle.search_shape.specs.inner.Tried.{shape_of, first_masks};

use layout::RING_WORDS;
use query::Facts;
use search_standings::Shape;
use side_tables::Table;

// The first n words zero.
pub fn clear_words(words: &mut [u64], n: usize)
    requires { n ≤ length words.old }
    ensures { words.new ≡ cleared 0 n words.old }
{
    words[..n].fill(0);
}

// How many records a claim of this kind needs for the allowance.
pub fn records_needed(ring: bool, allowance: usize) -> usize
    ensures { result ≡ cond ring 0 allowance }
{
    if ring {
        return 0;
    }
    allowance
}

// How many words a claim of this kind needs for the allowance.
pub fn words_needed(ring: bool, allowance: usize) -> usize
    requires { allowance ≤ MOST-STANDINGS }
    ensures { result ≡ cond ring (RING-WORDS * allowance) 0 }
{
    if ring {
        return RING_WORDS * allowance;
    }
    0
}

// Whether the memory of the claim's kind, these records and words, has room for the allowance.
pub fn enough(ring: bool, allowance: usize, records: usize, words: &[u64]) -> bool
    requires { allowance ≤ MOST-STANDINGS }
    ensures { (r : List (List ℕ)) → records ≡ length r → result ≡ room_for ring allowance r words.now }
{
    if ring {
        return RING_WORDS * allowance <= words.len();
    }
    allowance <= records
}

// What the search knows of a decision beside its tables.
pub fn shape_of(f: Facts) -> Shape
    ensures { result ≡ shape_of f }
{
    Shape {
        ring: f.ring,
        right: f.right,
        live: f.live,
        relations: f.relations,
    }
}

// The letters that are tried: at level 1 of a ring claim all, and else those whose atom is the lowest of those that are alike.
pub fn letters_tried(
    f: Facts,
    left: &Table,
    right: &Table,
    first: &mut [u64; 16],
    later: &mut [u64; 16],
)
    ensures first_ones { first.new ≡ first_masks f left.now right.now }
    ensures later_ones { later.new ≡ masks_of (shape_of f) f.left left.now right.now }
{
    let k = shape_of(f);
    search_alike::masks(k, f.left, left, right, later);
    if f.ring {
        search_alike::all_live(f.live, first);
        return;
    }
    let same = *later;
    *first = same;
}
