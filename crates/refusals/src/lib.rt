// Every cause of a refusal, and its number. (Document 01, "Refusals with an example each".) Causes are finer than numbers.
#![tactic(auto)]

ghost use Rattle.std.specs.Prelude.{◌≡◌};
ghost use Rattle.claims.specs.Refusals.{number as number_of};
ghost use Rattle.refusals.specs.Causes.{cause_of};

// Why a query, an allowance, lent memory, a graph or a sheet is refused.
#[derive(Clone, Copy)]
pub enum Reason {
    TooLong,
    BadByte,
    Notation,
    TooDeep,
    UnknownName,
    WrongKind,
    DeclaredTwice,
    ReservedName,
    TooMany,
    NoClaim,
    AfterClaim,
    OverLimit,
    BadAllowance,
    ShortMemory,
    SpentAllowance,
    ShortBuffer,
    GraphField,
    SheetField,
    DoesNotPass,
}

// A refusal: why, and where: the line of a query or of a judgement's graph, or the field of a sheet, as the call that refuses says.
#[derive(Clone, Copy)]
pub struct Refusal {
    pub why: Reason,
    pub place: usize,
}

// The number of a refusal.
pub fn number(why: Reason) -> u64
    ensures { result ≡ number_of (cause_of why) }
{
    match why {
        Reason::TooLong => 1,
        Reason::BadByte => 2,
        Reason::Notation => 3,
        Reason::TooDeep => 4,
        Reason::UnknownName => 5,
        Reason::WrongKind => 5,
        Reason::DeclaredTwice => 5,
        Reason::ReservedName => 5,
        Reason::TooMany => 6,
        Reason::NoClaim => 7,
        Reason::AfterClaim => 7,
        Reason::OverLimit => 8,
        Reason::BadAllowance => 9,
        Reason::ShortMemory => 9,
        Reason::SpentAllowance => 10,
        Reason::ShortBuffer => 11,
        Reason::GraphField => 12,
        Reason::SheetField => 13,
        Reason::DoesNotPass => 14,
    }
}
