// What a refusal means, in words: the place, the cause, and the line of the query that it is about. (Document 01, "Refusals with an example
// each", has the causes; the words are ours.) Every cause has its own words, and says whether its place is a line of the query: a cause that is
// added is a line of each of the two tables. Texts are put at a place within the memory, which is required: the place after the piece before it.
#![tactic(auto)]

ghost use Rattle.std.specs.Prelude.{◌≤◌, ◌≡◌, map, length};
ghost use Rattle.print_line.specs.Puts.{Puts};
ghost use Rattle.refusal_texts.specs.CauseText.{cause_text, of_query};
ghost use Rattle.refusal_texts.specs.Sentences.{place_text, sentence_of, visible, words_of};

use refusals::Reason;

// The words of a cause.
fn put_cause(out: &mut [u8], at: usize, why: Reason) -> usize
    ensures { Puts out.old at (cause_text why) result out.new }
{
    match why {
        Reason::TooLong => print_line::put_text(out, at, b"the query has more than 4,096 bytes"),
        Reason::BadByte => print_line::put_text(
            out,
            at,
            b"a byte is neither printable ASCII nor the end of a line",
        ),
        Reason::Notation => print_line::put_text(out, at, b"this is not a line of the notation"),
        Reason::TooDeep => print_line::put_text(
            out,
            at,
            b"more than 32 round brackets are open at once",
        ),
        Reason::UnknownName => print_line::put_text(
            out,
            at,
            b"a name is used that no line above declares",
        ),
        Reason::WrongKind => print_line::put_text(
            out,
            at,
            b"a name is used as something else than it was declared as",
        ),
        Reason::DeclaredTwice => print_line::put_text(out, at, b"a name is declared a second time"),
        Reason::ReservedName => print_line::put_text(
            out,
            at,
            b"a word of the notation is declared as a name",
        ),
        Reason::TooMany => print_line::put_text(
            out,
            at,
            b"one declaration too many: at most 6 tests, 16 relations, 32 lets",
        ),
        Reason::NoClaim => print_line::put_text(out, at, b"the query has no claim"),
        Reason::AfterClaim => print_line::put_text(
            out,
            at,
            b"a line stands behind the claim, which has to be the last",
        ),
        Reason::OverLimit => print_line::put_text(
            out,
            at,
            b"a side of the claim has too many occurrences or leaves",
        ),
        Reason::BadAllowance => print_line::put_text(
            out,
            at,
            b"the allowance is not from 1 to 4,096",
        ),
        Reason::ShortMemory => print_line::put_text(
            out,
            at,
            b"the memory is short of the allowance",
        ),
        Reason::SpentAllowance => print_line::put_text(
            out,
            at,
            b"the allowance is spent before a verdict is found",
        ),
        Reason::ShortBuffer => print_line::put_text(
            out,
            at,
            b"the sheet buffer is too short for the sheet",
        ),
        Reason::GraphField => print_line::put_text(
            out,
            at,
            b"this field of the graph is cut, or its tag, length or value is wrong",
        ),
        Reason::SheetField => print_line::put_text(
            out,
            at,
            b"this field of the sheet is cut, or its tag, length or value is wrong",
        ),
        Reason::DoesNotPass => print_line::put_text(
            out,
            at,
            b"the sheet is well formed, but it does not pass for this query",
        ),
    }
}

// Whether the place of a refusal is a line of the query.
fn of_query(why: Reason) -> bool
    ensures { result ≡ of_query why }
{
    match why {
        Reason::TooLong => true,
        Reason::BadByte => true,
        Reason::Notation => true,
        Reason::TooDeep => true,
        Reason::UnknownName => true,
        Reason::WrongKind => true,
        Reason::DeclaredTwice => true,
        Reason::ReservedName => true,
        Reason::TooMany => true,
        Reason::NoClaim => true,
        Reason::AfterClaim => true,
        Reason::OverLimit => true,
        Reason::BadAllowance => false,
        Reason::ShortMemory => false,
        Reason::SpentAllowance => false,
        Reason::ShortBuffer => false,
        Reason::GraphField => false,
        Reason::SheetField => false,
        Reason::DoesNotPass => false,
    }
}

// Where it is: a line of the query, or a field; nothing for place 0.
fn put_place(out: &mut [u8], at: usize, line: bool, place: usize) -> usize
    requires { at ≤ length out.old }
    ensures { Puts out.old at (place_text line place) result out.new }
{
    if place == 0 {
        return at;
    }
    if line {
        let a = print_line::put_text(out, at, b"line ");
        let b = print_line::put_decimal(out, a, place as u64);
        return print_line::put_text(out, b, b": ");
    }
    let a = print_line::put_text(out, at, b"field ");
    let b = print_line::put_decimal(out, a, place as u64);
    print_line::put_text(out, b, b": ")
}

// The sentence of a refusal.
fn put_sentence(out: &mut [u8], why: Reason, place: usize) -> usize
    ensures { Puts out.old 0 (sentence_of why place) result out.new }
{
    let a = print_line::put_text(out, 0, b"fence: ");
    let b = put_place(out, a, of_query(why), place);
    let c = put_cause(out, b, why);
    print_line::put_byte(out, c, b'\n')
}

// A byte that can be shown: a question mark for one that is not printable.
fn shown_byte(b: u8) -> u8
    ensures { result ≡ visible b }
{
    if b < 32 {
        return 63;
    }
    if 126 < b {
        return 63;
    }
    b
}

// The bytes of a line, each as it can be shown.
fn put_shown(out: &mut [u8], at: usize, line: &[u8]) -> usize
    requires { at ≤ length out.old }
    ensures { Puts out.old at (map visible line.now) result out.new }
{
    let mut to = at;
    for b in line {
        to = print_line::put_byte(out, to, shown_byte(*b));
    }
    to
}

// The sentence of a refusal, and behind it the line of the query that it is about, where it is about one.
pub fn refusal(out: &mut [u8], why: Reason, place: usize, text: &[u8]) -> usize
    ensures { Puts out.old 0 (words_of why place text.now) result out.new }
{
    let a = put_sentence(out, why, place);
    if place == 0 {
        return a;
    }
    if of_query(why) {
        let b = print_line::put_text(out, a, b"    ");
        let c = put_shown(out, b, texts::line(text, place));
        return print_line::put_byte(out, c, b'\n');
    }
    a
}
