// The bytes between items and behind lines, and what the reader and the writer answer.
#![tactic(auto)]

use program::{Program, Refusal};

pub const SPACE: u8 = 32;

pub const NEWLINE: u8 = 10;

// What a text is read as, with an `R` where it is refused; the program of a refused text is all zero.
#[derive(Clone, Copy)]
pub struct ReadWith<R> {
    pub verdict: Result<(), R>,
    pub program: Program,
}

// What the reader answers, with a `Refusal` there.
pub type Read = ReadWith<Refusal>;

// The length of the text that was written, or the refusal.
pub type Written = Result<usize, Refusal>;
