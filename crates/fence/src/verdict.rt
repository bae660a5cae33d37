// The calls of a verdict and of its sheet: the query is read, searched and shown. What is read and written no contract can say.
ghost use Rattle.std.specs.Prelude.{◌≤◌, length};
ghost use Rattle.outcome_lines.specs.Shown.{longest_line};

use crate::input::TEXT;
use layout::{LONGEST_SHEET, MOST_WORDS, PROGRAM_ALLOWANCE};

// Room for the longest line.
const LINE: usize = 32768;

// The query is read into the memory, searched and shown. The last memory is required to hold the longest line, so that no line is cut.
fn search_into(
    rt: HostRuntime,
    file: usize,
    allowance: usize,
    as_sheet: bool,
    text: &mut [u8],
    words: &mut [u64],
    buffer: &mut [u8],
    out: &mut [u8],
)
    requires { longest_line ≤ length out.old }
{
    let Some(n) = crate::input::read(rt, file, text) else {
        return;
    };
    if as_sheet {
        let r = search::search_alone(texts::first(text, n), allowance, words, buffer);
        crate::output::show_sheet(r, texts::first(text, n), buffer, out);
        return;
    }
    crate::output::query(texts::first(text, n), allowance, words, buffer, out);
}

// The query program of document 01, at its allowance: the line is made with memory of its own, so that none is lent.
fn queried(rt: HostRuntime, file: usize) {
    let mut text = [0u8; TEXT];
    let mut words = [0u64; 0];
    let mut buffer = [0u8; 0];
    let mut out = [0u8; LINE];
    search_into(
        rt,
        file,
        PROGRAM_ALLOWANCE,
        false,
        &mut text,
        &mut words,
        &mut buffer,
        &mut out,
    );
}

// The call of a verdict or its sheet, with memory for the largest allowance, its longest sheet and its longest line.
pub fn searched(rt: HostRuntime, file: usize, allowance: usize, as_sheet: bool) {
    let mut text = [0u8; TEXT];
    let mut words = [0u64; MOST_WORDS];
    let mut buffer = [0u8; LONGEST_SHEET];
    let mut out = [0u8; LINE];
    search_into(
        rt,
        file,
        allowance,
        as_sheet,
        &mut text,
        &mut words,
        &mut buffer,
        &mut out,
    );
}

// The call of a verdict.
pub fn verdict(rt: HostRuntime, file: usize, allowance: usize) {
    if allowance == PROGRAM_ALLOWANCE {
        queried(rt, file);
        return;
    }
    searched(rt, file, allowance, false);
}
