// Names by their keys: the words that are no names, the table of declared names, and the slips of names. (Document 01, "The query".)
#![tactic(auto)]

ghost use Rattle.std.specs.Prelude.{◌≡◌, ◌<◌};
ghost use Rattle.read_names.specs.Keys.{same_key, reserved_key, word_key, find_in, entered};
ghost use Rattle.read_names.specs.Keywords.{place_of};
ghost use Rattle.read_names.specs.Slips.{declared_slip, relation_number, first_of, slip_of_code};

use read_tokens::Key;

pub fn same_key(a: Key, b: Key) -> bool
    ensures { result ≡ same_key a b }
{
    a == b
}

// The words that are no names.
#[derive(Clone, Copy, PartialEq, Eq)]
pub enum Keyword {
    Test,
    Rel,
    Let,
    Never,
    Within,
    Closed,
    Assume,
    Claim,
    In,
    Empty,
    Include,
    Irreflexive,
    True,
    False,
}

// All of them, in the document's order.
pub const KEYWORDS: [Keyword; 14] = [
    Keyword::Test,
    Keyword::Rel,
    Keyword::Let,
    Keyword::Never,
    Keyword::Within,
    Keyword::Closed,
    Keyword::Assume,
    Keyword::Claim,
    Keyword::In,
    Keyword::Empty,
    Keyword::Include,
    Keyword::Irreflexive,
    Keyword::True,
    Keyword::False,
];

impl Keyword {
    // The word's key: its bytes, eight in each half.
    pub fn key(self) -> Key
        ensures { result ≡ word_key (place_of self) }
    {
        match self {
            Keyword::Test => Key {
                high: 0x7465_7374_0000_0000,
                low: 0,
            },
            Keyword::Rel => Key {
                high: 0x7265_6c00_0000_0000,
                low: 0,
            },
            Keyword::Let => Key {
                high: 0x6c65_7400_0000_0000,
                low: 0,
            },
            Keyword::Never => Key {
                high: 0x6e65_7665_7200_0000,
                low: 0,
            },
            Keyword::Within => Key {
                high: 0x7769_7468_696e_0000,
                low: 0,
            },
            Keyword::Closed => Key {
                high: 0x636c_6f73_6564_0000,
                low: 0,
            },
            Keyword::Assume => Key {
                high: 0x6173_7375_6d65_0000,
                low: 0,
            },
            Keyword::Claim => Key {
                high: 0x636c_6169_6d00_0000,
                low: 0,
            },
            Keyword::In => Key {
                high: 0x696e_0000_0000_0000,
                low: 0,
            },
            Keyword::Empty => Key {
                high: 0x656d_7074_7900_0000,
                low: 0,
            },
            Keyword::Include => Key {
                high: 0x696e_636c_7564_6500,
                low: 0,
            },
            Keyword::Irreflexive => Key {
                high: 0x6972_7265_666c_6578,
                low: 0x6976_6500_0000_0000,
            },
            Keyword::True => Key {
                high: 0x7472_7565_0000_0000,
                low: 0,
            },
            Keyword::False => Key {
                high: 0x6661_6c73_6500_0000,
                low: 0,
            },
        }
    }
}

// The key of the word at a place among them; behind the last, the key of no bytes.
pub fn word_key(n: usize) -> Key
    ensures { result ≡ word_key n }
{
    match KEYWORDS.get(n) {
        Some(word) => word.key(),
        None => Key { high: 0, low: 0 },
    }
}

// No name may have this key.
pub fn reserved(k: Key) -> bool
    ensures { result ≡ reserved_key k }
{
    KEYWORDS.iter().any(|word| k == word.key())
}

// The code of the first of n entries with the key k, 0 if there is none. Three words are an entry: the key's two, and a code.
pub fn find(names: &[u64], n: usize, k: Key) -> u64
    ensures { result ≡ find_in n names.now k }
{
    let mut left = n;
    let mut at = 0;
    while 0 < left {
        if names.len() - at < 3 {
            return 0;
        }
        if same_key(
            Key {
                high: names[at],
                low: names[at + 1],
            },
            k,
        ) {
            return names[at + 2];
        }
        at += 3;
        left -= 1;
    }
    0
}

// The entry of a name behind n others. What is required is no limit: at most 54 names are declared, and the table has room for 64.
pub fn enter(names: &mut [u64; 192], n: usize, k: Key, code: u64)
    requires { n < 64 }
    ensures { names.new ≡ entered names.old n k code }
{
    names[n * 3] = k.high;
    names[n * 3 + 1] = k.low;
    names[n * 3 + 2] = code;
}

// What is wrong with a name: nothing; no line declares it; it is of another kind than the one that is wanted; it is declared for a second
// time; it is a word that is no name.
#[derive(Clone, Copy)]
pub enum Slip {
    Clean,
    Unknown,
    OtherKind,
    Twice,
    Reserved,
}

// The first of two slips.
pub fn first_slip(old: Slip, new: Slip) -> Slip
    ensures { result ≡ first_of old new }
{
    match old {
        Slip::Clean => new,
        _ => old,
    }
}

// The slip of a name, by its code, where only codes from `low` to below `high` are wanted.
pub fn slip_of(code: u64, low: u64, high: u64) -> Slip
    ensures { result ≡ slip_of_code low high code }
{
    if code == 0 {
        return Slip::Unknown;
    }
    if code < low {
        return Slip::OtherKind;
    }
    if code < high {
        return Slip::Clean;
    }
    Slip::OtherKind
}

// The slip of a name that is declared: reserved, or declared before.
pub fn declaration_slip(k: Key, names: &[u64], n: usize) -> Slip
    ensures { result ≡ declared_slip n names.now k }
{
    if reserved(k) {
        return Slip::Reserved;
    }
    if find(names, n, k) == 0 {
        return Slip::Clean;
    }
    Slip::Twice
}

// The number of a relation, by its code.
pub fn relation_number(code: u64) -> u64
    ensures { (result ≡ relation_number code) × (result < 32) }
{
    if code < codes::A_RELATION {
        return 0;
    }
    if code < codes::A_LET {
        return code - codes::A_RELATION;
    }
    0
}
