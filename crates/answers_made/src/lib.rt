// What each call answers, as three numbers.
#![tactic(auto)]

ghost use Rattle.std.specs.Prelude.{◌≡◌};
ghost use Rattle.answers.specs.Answers.{answer, by_number, of_verdict, of_outcome, of_written, of_checked, of_held, of_cleared};

use answers::Answer;
use held::{ClearStatus, HoldStatus};
use program::{Outcome, Refusal};
use stable::Checked;

pub fn made(outcome: u64, first: u64, second: u64) -> Answer
    ensures { result ≡ answer outcome first second }
{
    Answer {
        outcome,
        first,
        second,
    }
}

// The number of a refusal, with two numbers beside it.
fn refused(number: u8, first: u64, second: u64) -> Answer
    ensures { result ≡ answer number first second }
{
    made(u64::from(number), first, second)
}

// An answer with the number of its refusal.
#[tactic(auto, unfolding(answers::specs::Answers::by_number))]
pub fn by_number<T: Copy>(answer: Result<T, Refusal>) -> Result<T, u8>
    ensures { result ≡ by_number answer }
{
    match answer {
        Ok(found) => Ok(found),
        Err(refusal) => Err(u8::from(refusal)),
    }
}

// ---- what calls answer
// A verdict, with a number beside it.
#[tactic(auto, unfolding(answers::specs::Answers::of_verdict))]
pub fn of_verdict(verdict: Result<(), u8>, beside: u64) -> Answer
    ensures { result ≡ of_verdict verdict beside }
{
    match verdict {
        Ok(()) => made(answers::ACCEPTED, beside, 0),
        Err(number) => refused(number, beside, 0),
    }
}

// How a run that lists models ended, with the models written and the nodes visited.
#[tactic(auto, unfolding(answers::specs::Answers::of_outcome))]
pub fn of_outcome(outcome: Result<Outcome, u8>, written: u64, visited: u64) -> Answer
    ensures { result ≡ of_outcome outcome written visited }
{
    match outcome {
        Ok(Outcome::Complete) => made(answers::COMPLETE, written, visited),
        Ok(Outcome::Full) => made(answers::FULL, written, visited),
        Ok(Outcome::Spent) => made(answers::SPENT, written, visited),
        Err(number) => refused(number, written, visited),
    }
}

// The length of a text that was written.
#[tactic(auto, unfolding(answers::specs::Answers::of_written))]
pub fn of_written(written: Result<usize, u8>) -> Answer
    ensures { result ≡ of_written written }
{
    match written {
        Ok(n) => made(answers::ACCEPTED, n as u64, 0),
        Err(not_written) => refused(not_written, 0, 0),
    }
}

// What the check finds of a candidate, and the candidate.
#[tactic(auto, unfolding(answers::specs::Answers::of_checked))]
pub fn of_checked(checked: Result<Checked, u8>, candidate: u64) -> Answer
    ensures { result ≡ of_checked checked candidate }
{
    match checked {
        Err(number) => refused(number, 0, candidate),
        Ok(Checked::Violated(k)) => made(answers::VIOLATED, u64::from(k), candidate),
        Ok(Checked::Smaller(j)) => made(answers::SMALLER, u64::from(j), candidate),
        Ok(Checked::Stable) => made(answers::STABLE, 0, candidate),
    }
}

// What holding a clause finds.
#[tactic(auto, unfolding(answers::specs::Answers::of_held))]
pub fn of_held(status: Result<HoldStatus, u8>) -> Answer
    ensures { result ≡ of_held status }
{
    match status {
        Ok(HoldStatus::New) => made(answers::NEW, 0, 0),
        Ok(HoldStatus::Equal) => made(answers::EQUAL, 0, 0),
        Err(not_held) => refused(not_held, 0, 0),
    }
}

// Whether a held clause was kept or let go.
#[tactic(auto, unfolding(answers::specs::Answers::of_cleared))]
pub fn of_cleared(status: Result<ClearStatus, u8>) -> Answer
    ensures { result ≡ of_cleared status }
{
    match status {
        Ok(ClearStatus::Cleared) => made(answers::CLEARED, 0, 0),
        Ok(ClearStatus::NothingHeld) => made(answers::NOTHING_HELD, 0, 0),
        Err(not_cleared) => refused(not_cleared, 0, 0),
    }
}
