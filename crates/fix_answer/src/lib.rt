// What the fixpoint answers and lists, and that these are the p-stable models: definitions and theorems, and no function.
#![tactic(auto)]

use program::{Outcome, Refusal};

// What a fixpoint answers, with an `R` where it is refused; its outcome is never spent.
#[derive(Clone, Copy)]
pub struct FixpointAnswerWith<R> {
    pub outcome: Result<Outcome, R>,
    pub written: usize,
}

// What the fixpoint answers, with a `Refusal` there.
pub type FixpointAnswer = FixpointAnswerWith<Refusal>;
