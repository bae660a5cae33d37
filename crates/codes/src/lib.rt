// The codes of a query's syntax, by name (`specs/Codes.antt` says where each stands), and what a walk over them keeps of the lets.
#![tactic(auto)]

ghost use Rattle.std.specs.Prelude.{◌≡◌, cond, ◌+◌, ◌<◌, ◌^◌, eqb};
ghost use Rattle.codes.specs.Codes.{LET-LINE, claim_kind};
ghost use Rattle.codes.specs.Lets.{kept};

// T: `true`, `false`, `|`, `&` and `!`.
pub const TRUE: u64 = 1;

pub const FALSE: u64 = 2;

pub const OR: u64 = 3;

pub const AND: u64 = 4;

pub const NOT: u64 = 5;

// E: `[T]`, `|`, `;`, `*`, `+` and `?`.
pub const TESTED: u64 = 6;

pub const UNION: u64 = 7;

pub const SEQUENCE: u64 = 8;

pub const STAR: u64 = 9;

pub const PLUS: u64 = 10;

pub const OPTIONAL: u64 = 11;

// Names: the number of the test, relation or let is added. `ANY`, one step of whichever relation, stands in no query.
pub const A_TEST: u64 = 16;

pub const LAST_TEST: u64 = 21;

pub const A_RELATION: u64 = 32;

pub const LAST_RELATION: u64 = 47;

pub const ANY: u64 = 48;

pub const A_LET: u64 = 64;

pub const LETS_END: u64 = 96;

// A code from here on ends a line, or the left side of an inclusion.
pub const LINE: u64 = 128;

// Lines: each ends with its kind.
pub const TEST_LINE: u64 = 128;

pub const REL_LINE: u64 = 129;

pub const LET_LINE: u64 = 130;

pub const NEVER_LINE: u64 = 131;

pub const ASSUME_EMPTY: u64 = 133;

pub const ASSUME_IRREFLEXIVE: u64 = 134;

// The claim: the left side of an inclusion ends, and then the kind.
pub const INCLUDED: u64 = 135;

pub const CLAIM_INCLUDE: u64 = 136;

pub const CLAIM_EMPTY: u64 = 137;

pub const CLAIM_IRREFLEXIVE: u64 = 138;

// Lines on a relation, whose number is added.
pub const WITHIN_LINE: u64 = 144;

pub const CLOSED_LINE: u64 = 160;

// Behind the last `closed` line: its code says which of the 16 relations is closed.
pub const CLOSED_END: u64 = 176;

// Declarations: at most so many tests, relations and lets.
pub const MOST_TESTS: usize = 6;

pub const MOST_RELATIONS: usize = 16;

pub const MOST_LETS: usize = 32;

// Three sets of atoms for each relation: where its step may start, stop and follow itself.
pub const RELATION_SETS: usize = 48;

// At the end of the line of let n the number x is kept for it.
pub fn keep_let(lets: &mut [u64; MOST_LETS], k: u64, n: usize, x: u64)
    ensures { lets.new ≡ kept lets.old k n x }
{
    if k == LET_LINE {
        if n < MOST_LETS {
            lets[n] = x;
        }
    }
}

// How many lets there were. What is required is no limit: no memory has so many codes.
pub fn lets_after(n: usize, k: u64) -> usize
    requires { n < 2 ^ 62 }
    ensures { result ≡ n + cond (eqb k LET-LINE) 1 0 }
{
    if k == LET_LINE { n + 1 } else { n }
}

// The last code, which tells the kind of the claim; 0 where there is none.
pub fn claim_kind(codes: &[u64]) -> u64
    ensures { result ≡ claim_kind codes.now }
{
    codes.last().copied().unwrap_or(0)
}
