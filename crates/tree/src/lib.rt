// The tree of a search, and what a run over it answers: definitions and theorems, no function.
#![tactic(auto)]

use program::{Outcome, Refusal};

// What the test of a node tells; a node that is not alive is dead.
#[derive(Clone, Copy)]
pub enum NodeStatus {
    Alive,
    Violated,
    Unsupported,
}

// What a search answers, with an `R` where it is refused.
#[derive(Clone, Copy)]
pub struct SearchAnswerWith<R> {
    pub outcome: Result<Outcome, R>,
    pub written: usize,
    pub visited: u64,
}

// What the search answers, with a `Refusal` there.
pub type SearchAnswer = SearchAnswerWith<Refusal>;
