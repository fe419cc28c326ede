// What a call answered, as three numbers, whatever the call, and what is expected of it: definitions and laws, and no function.
#![tactic(auto)]

// As an expected number, any.
pub const ANY: u64 = 18_446_744_073_709_551_615;

// The places of a list, of which so many are lent as a call is to have.
pub const PLACES: usize = 4096;

// What they hold before the call.
pub const FREE: u32 = 4_294_967_295;

// An outcome with two numbers: models written and nodes visited, or what the outcome names.
#[derive(Clone, Copy)]
pub struct Answer {
    pub outcome: u64,
    pub first: u64,
    pub second: u64,
}

// What is expected, and what was found in its place.
#[derive(Clone, Copy)]
pub struct Difference {
    pub expected: Answer,
    pub found: Answer,
}

// ---- outcomes: one below 100 is the refusal's number
pub const ACCEPTED: u64 = 0;

pub const COMPLETE: u64 = 100;

pub const FULL: u64 = 101;

pub const SPENT: u64 = 102;

pub const STABLE: u64 = 103;

pub const VIOLATED: u64 = 104;

pub const SMALLER: u64 = 105;

// A number and its place.
pub const NUMBER: u64 = 106;

// Expected of a candidate that is not p-stable; no check answers so.
pub const UNSTABLE: u64 = 107;

pub const NEW: u64 = 108;

pub const EQUAL: u64 = 109;

pub const CLEARED: u64 = 110;

pub const NOTHING_HELD: u64 = 111;

// What gave an answer: a call, or a slice that was lent to it.
#[derive(Clone, Copy)]
pub enum Source {
    Reader,
    Writer,
    Search,
    Fixpoint,
    Check,
    Summary,
    List,
    Text,
    Record,
    Hold,
    Keep,
    Release,
}
