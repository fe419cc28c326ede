// Document 02, U5 and U13: what hold, keep and release answer: definitions and laws, and no function.
#![tactic(auto)]

use program::{Program, Refusal};

// What holding a clause finds: whether an equal one stands already.
#[derive(Clone, Copy)]
pub enum HoldStatus {
    New,
    Equal,
}

#[derive(Clone, Copy)]
pub struct HoldAnswer {
    pub status: Result<HoldStatus, Refusal>,
    pub program: Program,
}

// Whether the separate place was in use, and is clear now.
#[derive(Clone, Copy)]
pub enum ClearStatus {
    Cleared,
    NothingHeld,
}

#[derive(Clone, Copy)]
pub struct ClearAnswer {
    pub status: Result<ClearStatus, Refusal>,
    pub program: Program,
}
