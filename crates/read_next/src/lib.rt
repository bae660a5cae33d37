// What stands next in a line, as a reader asks for it: a given mark, a given word, a run of one mark; codes written, and cleared behind a
// fault. (Document 01, "The query".)
#![tactic(auto)]

ghost use Rattle.std.specs.Prelude.{◌≡◌, Err};
ghost use Rattle.memory.specs.Memory.{zeros};
ghost use Rattle.read_next.specs.Next.{mark_next, word_next, MarksNext};
ghost use Rattle.read_next.specs.Written.{used_after, written_after};

use read_tokens::{Key, Token};

// A run of one mark: how many, and the position behind them.
#[derive(Clone, Copy)]
pub struct Run {
    pub at: usize,
    pub count: usize,
}

// The position behind the mark b, if it stands next.
pub fn mark_next(s: &[u8], at: usize, b: u8) -> Option<usize>
    ensures { result ≡ mark_next s.now at b }
{
    if read_tokens::first_byte(s, at) != b {
        return None;
    }
    let t = read_tokens::token_at(s, at);
    let Token::Mark(c, next) = t else {
        return None;
    };
    if b == c { Some(next) } else { None }
}

// The position behind the word with the key k, if it stands next.
pub fn word_next(s: &[u8], at: usize, k: Key) -> Option<usize>
    ensures { result ≡ word_next s.now at k }
{
    let t = read_tokens::token_at(s, at);
    let Token::Word(l, next) = t else {
        return None;
    };
    if read_names::same_key(k, l) {
        Some(next)
    } else {
        None
    }
}

// As many marks b as stand next.
pub fn marks_next(s: &[u8], at: usize, b: u8) -> Run
    ensures { MarksNext s.now at b result }
{
    let mut i = at;
    let mut count = 0;
    while let Some(next) = mark_next(s, i, b) {
        i = next;
        count += 1;
    }
    Run { at: i, count }
}

// Writes the code `count` times, from `used` on, where there is room for all of them; else nothing. The next unused place.
pub fn write(out: &mut [u64; 4096], used: usize, count: usize, code: u64) -> usize
    ensures { (result ≡ used_after used count) × (out.new ≡ written_after out.old used count code) }
{
    if 4096 < used {
        return used;
    }
    if 4096 - used < count {
        return used;
    }
    out[used..used + count].fill(code);
    used + count
}

// A fault, or a refusal: no code is left.
pub fn fail<T, E>(out: &mut [u64; 4096], why: E) -> Result<T, E>
    ensures { (result ≡ Err why) × (out.new ≡ zeros 4096) }
{
    memory::clear(out);
    Err(why)
}
