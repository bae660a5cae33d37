// The bytes that a line of stored cases stands for. (vectors/README.md) `\\` is a backslash, `\n` byte 10, `\xHH` the byte of the two
// lowercase hex digits, and any other byte itself. What no stored case has is taken as well: a backslash before another byte is passed
// over, and a byte that is no digit counts as the digit 0.
ghost use Rattle.std.specs.Prelude.{◌≤◌, [], ◌∷◌, ◌≡◌};
ghost use Rattle.case_lines.specs.Escapes.{after, ended, hex_digit};
ghost use Rattle.case_lines.specs.Fields.{Puts};
ghost use Rattle.case_lines.specs.Lines.{line_start};
ghost use Rattle.case_lines.specs.declared.escape.Next.TheVariants.{Plain};

// What the next byte of the line is: a byte of the query or a backslash, the byte behind a backslash, or one of two digits; the last
// comes with 16 times the first digit.
#[derive(Clone, Copy)]
pub enum Next {
    Plain,
    Escape,
    High,
    Low(u8),
}

// How far a line is read: the bytes of the query that are kept, and what comes next.
#[derive(Clone, Copy)]
pub struct Place {
    pub used: usize,
    pub next: Next,
}

// The number of a lowercase hex digit.
pub fn digit(b: u8) -> u8
    ensures { (result ≡ hex_digit b) × (result ≤ 15) }
{
    match b {
        b'0'..=b'9' => b - b'0',
        b'a'..=b'f' => b - b'a' + 10,
        _ => 0,
    }
}

// The place at the start of a line.
pub fn start() -> Place
    ensures { result ≡ line_start }
{
    Place {
        used: 0,
        next: Next::Plain,
    }
}

// One more byte of the query, which is kept where there is room for it.
fn keep(text: &mut [u8], used: usize, b: u8) -> Place
    ensures { Puts text.old used (b ∷ []) result.used text.new × (result.next ≡ Plain) }
{
    if used < text.len() {
        text[used] = b;
        return Place {
            used: used + 1,
            next: Next::Plain,
        };
    }
    Place {
        used,
        next: Next::Plain,
    }
}

// The place behind a byte of the line.
pub fn step(text: &mut [u8], at: Place, b: u8) -> Place
    ensures { Puts text.old at.used (ended at.next b) result.used text.new × (result.next ≡ after at.next b) }
{
    let used = at.used;
    let next = at.next;
    match next {
        Next::Plain => {
            if b == b'\\' {
                return Place {
                    used,
                    next: Next::Escape,
                };
            }
            keep(text, used, b)
        }
        Next::Escape => {
            if b == b'x' {
                return Place {
                    used,
                    next: Next::High,
                };
            }
            if b == b'n' {
                return keep(text, used, 10);
            }
            keep(text, used, b)
        }
        Next::High => Place {
            used,
            next: Next::Low(digit(b) << 4),
        },
        Next::Low(high) => keep(text, used, high | digit(b)),
    }
}
