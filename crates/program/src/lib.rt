// The table of a program, by value, and what calls answer: definitions and laws, and the number of a refusal.
#![tactic(auto)]

ghost use Rattle.std.specs.Prelude.{◌≡◌};
ghost use Rattle.program.specs.Refusals.{number};

// ---- the table
// "Names: 1 to 12", each in a place of eight bytes; "Clauses: 0 to 64".
pub const MOST_ATOMS: usize = 12;

pub const NAME_BYTES: usize = 8;

pub const ALL_NAME_BYTES: usize = MOST_ATOMS * NAME_BYTES;

pub const MOST_CLAUSES: usize = 64;

// Document 02, U5: a separate place for one clause that does not count yet; it is zero where it is not in use.
#[derive(Clone, Copy)]
pub struct HeldClause {
    pub in_use: bool,
    pub head: u32,
    pub body: u32,
    pub naf: u32,
    pub first: u16,
    pub last: u16,
}

// Document 01's table; a name is an atom here, and unused places are zero.
// Document 02, U13: whether its book was dated, and the first and the last day of each clause, zero where it was not.
#[derive(Clone, Copy)]
pub struct Program {
    pub atom_count: usize,
    pub atom_names: [u8; ALL_NAME_BYTES],
    pub clause_count: usize,
    pub heads: [u32; MOST_CLAUSES],
    pub bodies: [u32; MOST_CLAUSES],
    pub nafs: [u32; MOST_CLAUSES],
    pub dated: bool,
    pub firsts: [u16; MOST_CLAUSES],
    pub lasts: [u16; MOST_CLAUSES],
    pub held: HeldClause,
}

// ---- what calls answer
// Why a call refuses its input.
#[derive(Clone, Copy, Debug, PartialEq, Eq)]
pub enum Refusal {
    WrongSize,
    Unended,
    ForeignByte,
    TooManyLines,
    NamesBroken,
    NamesEqual,
    ClauseBroken,
    OnlyZeros,
    // The table is none that the reader could give, with or without a clause that may be held.
    InvalidProgram,
    // A word has a bit at 2n or above.
    OutsideWord,
    // For the fixpoint, W exceeds 64.
    TooManyMembers,
    // Some stage has more members than the working room.
    TooLittleRoom,
    // The writer's slice is shorter than the text.
    SliceTooShort,
    // On holding, a clause is held already.
    AlreadyHeld,
    // The clause to hold is empty, or uses a bit outside the names.
    NoClause,
    // As many clauses stand as a table has places for.
    NoPlaceLeft,
    // In a dated book or table a first day is after its last.
    DaysReversed,
}

// A refusal carries its number; 1 to 8 are the reader's.
impl From<Refusal> for u8 {
    ghost from_gives = { λ refusal n. n ≡ number refusal };

    fn from(refusal: Refusal) -> u8 {
        match refusal {
            Refusal::WrongSize => 1,
            Refusal::Unended => 2,
            Refusal::ForeignByte => 3,
            Refusal::TooManyLines => 4,
            Refusal::NamesBroken => 5,
            Refusal::NamesEqual => 6,
            Refusal::ClauseBroken => 7,
            Refusal::OnlyZeros => 8,
            Refusal::InvalidProgram => 9,
            Refusal::OutsideWord => 10,
            Refusal::TooManyMembers => 11,
            Refusal::TooLittleRoom => 12,
            Refusal::SliceTooShort => 13,
            Refusal::AlreadyHeld => 16,
            Refusal::NoClause => 17,
            Refusal::NoPlaceLeft => 18,
            Refusal::DaysReversed => 22,
        }
    }
}

// Whether a call takes its input, or why not.
pub type Verdict = Result<(), Refusal>;

// How a call that lists models ended; document 01's outcomes.
#[derive(Clone, Copy)]
pub enum Outcome {
    Complete,
    Full,
    Spent,
}
