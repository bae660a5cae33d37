// Pieces of a text: whether two are the same, a line by its number, the name that a line declares. (Document 01, "The query".) For words and
// names beside an answer; the reader of queries is built apart.
#![tactic(auto)]

ghost use Rattle.std.specs.Prelude.{◌+◌, ◌≤◌, min, ◌≡◌, length, take, drop};
ghost use Rattle.claims.specs.Bytes.{same as sameBytes};
ghost use Rattle.texts.specs.Lines.{front, back, in_line, in_word, behind, line_at, declared_by, name_at};
ghost use Rattle.texts.specs.inner.Parts.{of_part};

// The first n bytes of a text, or all of it where it has fewer.
pub fn first(text: &[u8], n: usize) -> &[u8]
    ensures { result.now ≡ take n text.now }
{
    if n <= text.len() {
        return &text[..n];
    }
    text
}

// Whether two texts are the same.
pub fn same(a: &[u8], b: &[u8]) -> bool
    ensures { result ≡ sameBytes a.now b.now }
{
    a == b
}

// What a part of a text consists of: the bytes of a line, spaces, or the bytes of a word.
#[derive(Clone, Copy)]
enum PartKind {
    Line,
    Spaces,
    Word,
}

// Whether the byte is a letter or a digit.
fn in_word(b: u8) -> bool
    ensures { result ≡ in_word b }
{
    ((65 <= b) & (b <= 90)) | ((97 <= b) & (b <= 122)) | ((48 <= b) & (b <= 57))
}

// Whether the byte belongs to such a part.
fn belongs(kind: PartKind, b: u8) -> bool
    ensures { result ≡ of_part kind b }
{
    match kind {
        PartKind::Line => b != 10,
        PartKind::Spaces => b == 32,
        PartKind::Word => in_word(b),
    }
}

// Where the part ends that goes on at a place. The place is required to be within the text, so that the end is.
fn part_end(text: &[u8], at: usize, kind: PartKind) -> usize
    requires { at ≤ length text.now }
    ensures { (at ≤ result) × (result ≤ length text.now) × (result ≡ at + length (front (of_part kind) (drop at text.now))) }
{
    for i in at..text.len() {
        if !belongs(kind, text[i]) {
            return i;
        }
    }
    text.len()
}

// Where the next line begins behind the end of a line, which is required to be within the text: behind its byte 10, or at the text's end.
fn line_after(text: &[u8], end: usize) -> usize
    requires { end ≤ length text.now }
    ensures { (result ≤ length text.now) × (min (end + 1) (length text.now) ≤ result) × (drop result text.now ≡ behind (drop end text.now)) }
{
    if end < text.len() {
        return end + 1;
    }
    end
}

// Where the next line begins behind a place, which is required to be within the text: behind the next byte 10, or at the text's end.
fn next_line(text: &[u8], at: usize) -> usize
    requires { at ≤ length text.now }
    ensures { (at ≤ result) × (result ≤ length text.now) × (min (at + 1) (length text.now) ≤ result) × (drop result text.now ≡ behind (back in_line (drop at text.now))) }
{
    line_after(text, part_end(text, at, PartKind::Line))
}

// Line n of the text, counted from 1, without its byte 10; no bytes where there is none.
pub fn line(text: &[u8], n: usize) -> &[u8]
    ensures { result.now ≡ line_at n text.now }
{
    if n == 0 {
        return &text[..0];
    }
    let mut at = 0;
    for line in 1..n {
        at = next_line(text, at);
    }
    let end = part_end(text, at, PartKind::Line);
    &text[at..end]
}

// The name that the line declares, where its first word is the given one, and else no bytes.
fn declared<'a>(line: &'a [u8], word: &[u8]) -> &'a [u8]
    ensures { result.now ≡ declared_by word.now line.now }
{
    let a = part_end(line, 0, PartKind::Spaces);
    let b = part_end(line, a, PartKind::Word);
    if same(&line[a..b], word) {
        let c = part_end(line, b, PartKind::Spaces);
        let d = part_end(line, c, PartKind::Word);
        return &line[c..d];
    }
    &line[..0]
}

// The name that k others stand before among those that the lines of the text declare, where the first word of such a line is the given one;
// no bytes where there is none. Lines that declare nothing do not count.
pub fn name<'a>(text: &'a [u8], word: &[u8], k: usize) -> &'a [u8]
    ensures { result.now ≡ name_at word.now k text.now }
{
    let mut at = 0;
    let mut left = k;
    while at < text.len() {
        let end = part_end(text, at, PartKind::Line);
        let next = line_after(text, end);
        let found = declared(&text[at..end], word);
        if 0 < found.len() {
            if left == 0 {
                return found;
            }
            left -= 1;
        }
        at = next;
    }
    &text[..0]
}
