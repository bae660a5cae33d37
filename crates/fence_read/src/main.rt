// Reads one query from standard input, of any number of bytes, and writes what the reader says of it.
#![tactic(auto)]

use streams::STDOUT;

fn main() {
    let mut text = [0u8; layout::LONGEST_QUERY + 1];
    let mut out = [0u8; reading_line::LONGEST];
    let n = io::read_full(0, &mut text);
    let m = reading_line::line(&text[..n], &mut out);
    io::write_all(STDOUT, texts::first(&out, m));
}
