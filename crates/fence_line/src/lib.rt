// The line of the query program, from the bytes of a query. (Document 01, "The desk's cases".) The memory is the call's own, enough for any
// answer at the program's allowance.
#![tactic(auto)]

ghost use Rattle.std.specs.Prelude.{◌≤◌, ◌≡◌, ◌++◌, length, drop};
ghost use Rattle.layout.specs.Layout.{PROGRAM-ALLOWANCE};
ghost use Rattle.claims.specs.Printed.{program_allowance, program_result, printed};
ghost use Rattle.search_outcomes.specs.Outcomes.{Says, Sized, given_by};
ghost use Rattle.print_line.specs.Puts.{Puts};
ghost use Rattle.outcome_lines.specs.Shown.{longest_line};

use layout::{PROGRAM_ALLOWANCE, RING_FIELD, RING_WORDS, VERDICT};
use refusals::Refusal;
use search_outcomes::Verdict;

// The words of the working memory at the program's allowance.
const WORDS: usize = RING_WORDS * PROGRAM_ALLOWANCE;

// The bytes of the longest sheet at that allowance.
const BYTES: usize = VERDICT + RING_FIELD * PROGRAM_ALLOWANCE;

// A line in memory: how many bytes it has, and the outcome that it shows.
#[derive(Clone, Copy)]
pub struct Said {
    pub bytes: usize,
    pub outcome: Result<Verdict, Refusal>,
}

// The line that the query program prints for the query that the text is, as far as it fits, and the outcome. Memory for the longest line has
// the whole of it.
pub fn line(text: &[u8], out: &mut [u8]) -> Said
    ensures puts { Puts out.old 0 (printed program_allowance text.now) result.bytes out.new
        × Says (program_result program_allowance text.now) result.outcome
        × Sized result.outcome (given_by text.now PROGRAM-ALLOWANCE) }
    ensures whole { longest_line ≤ length out.old
        → (out.new ≡ printed program_allowance text.now ++ drop (length (printed program_allowance text.now)) out.old)
        × (result.bytes ≡ length (printed program_allowance text.now)) }
{
    let mut words = [0u64; WORDS];
    let mut buffer = [0u8; BYTES];
    let r = search::search_alone(text, PROGRAM_ALLOWANCE, &mut words, &mut buffer);
    let n = outcome_lines::outcome_line(r, &buffer, out);
    Said {
        bytes: n,
        outcome: r,
    }
}
