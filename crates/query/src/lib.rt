// From the bytes of a query to its decision: what the search, the sheet check and the judge of graphs start from. (Document 01, "The query",
// "Words", "Standings" and "Refusals with an example each".) Every list of bytes gets an answer, and every lent word is said.
#![tactic(auto)]

ghost use Rattle.std.specs.Prelude.{◌≡◌, take};
ghost use Rattle.claims.specs.Reading.{read as reading};
ghost use Rattle.read_text.specs.Reading.{left_codes};
ghost use Rattle.query.specs.Answer.{Says, left_after, right_after};
ghost use Rattle.query.specs.inner.Counted.{is_ring, claim_sizes, in_limits, facts_by};

use read_text::Summary;
use refusals::{Reason, Refusal};
use side_build::Built;
use side_limits::Sizes;
use side_tables::{TABLE, Table};

// What an accepted query leaves: how many codes it has, whether its claim is one of rings, the occurrences of its two sides, the number of
// its atoms and relations, and the set of the atoms that no `never` removes.
#[derive(Clone, Copy)]
pub struct Facts {
    pub codes: usize,
    pub ring: bool,
    pub left: usize,
    pub right: usize,
    pub atoms: usize,
    pub live: u64,
    pub relations: usize,
}

// Whether the claim is one of rings.
fn is_ring(known: Summary) -> bool
    ensures { result ≡ is_ring known }
{
    known.kind == codes::CLAIM_IRREFLEXIVE
}

// What the claim of the first n codes counts, of which no line is left out.
fn sizes(codes: &[u64], n: usize) -> Sizes
    ensures { result ≡ claim_sizes (take n codes.now) }
{
    let m = n.min(codes.len());
    let part = &codes[..m];
    let none = [0u64; 0];
    let d = side_claim::claimed_in(part);
    side_limits::sizes_of(part, &none, d)
}

// Whether a query that was read is within the limits.
fn within(codes: &[u64], known: Summary) -> bool
    ensures { result ≡ in_limits known codes.now }
{
    let s = sizes(codes, known.codes);
    side_limits::within_limits(s)
}

// The facts of a query, by what the reader knows of it and what was built.
fn facts_by(known: Summary, b: Built) -> Facts
    ensures { result ≡ facts_by known b }
{
    Facts {
        codes: known.codes,
        ring: is_ring(known),
        left: b.left,
        right: b.right,
        atoms: side_relations::atom_count(known.tests as u64),
        live: b.live,
        relations: known.relations,
    }
}

// Reads the query that the text is. After an answer `codes` has its codes and zeros behind, `left` and `right` the tables of the two sides;
// after a refusal all are zero. Refusal 8 is at the last line.
pub fn read(
    text: &[u8],
    codes: &mut [u64; 4096],
    left: &mut Table,
    right: &mut Table,
) -> Result<Facts, Refusal>
    ensures { Says (reading text.now) result
        × (codes.new ≡ left_codes (reading text.now))
        × (left.new ≡ left_after (reading text.now))
        × (right.new ≡ right_after (reading text.now)) }
{
    memory::clear(left);
    memory::clear(right);
    let known = read_text::read(text, codes)?;
    if !within(codes, known) {
        memory::clear(codes);
        return Err(Refusal {
            why: Reason::OverLimit,
            place: known.lines,
        });
    }
    let tests = known.tests as u64;
    let b = side_build::build(codes, known.codes, tests, left, right);
    Ok(facts_by(known, b))
}

// Reads the query for the tables of its two sides. Its codes are needed no longer then, and their memory is this call's own.
pub fn read_sides(text: &[u8], left: &mut Table, right: &mut Table) -> Result<Facts, Refusal>
    ensures { Says (reading text.now) result
        × (left.new ≡ left_after (reading text.now))
        × (right.new ≡ right_after (reading text.now)) }
{
    let mut codes = [0u64; 4096];
    read(text, &mut codes, left, right)
}

// Reads the query for its codes. The tables of its two sides are built as well, for the facts, in memory that is this call's own.
pub fn read_codes(text: &[u8], codes: &mut [u64; 4096]) -> Result<Facts, Refusal>
    ensures { Says (reading text.now) result × (codes.new ≡ left_codes (reading text.now)) }
{
    let mut left = [0u64; TABLE];
    let mut right = [0u64; TABLE];
    read(text, codes, &mut left, &mut right)
}
