// Candidates are put to the check, against stored answers: the number of the violated clause and the smaller subset too.
use crate::{asking, saying};
use answers::Source;
use program::Program;
use std::io;

// The outcome that a stored number stands for; another number is the outcome of no check.
fn outcome_of(kind: u32) -> u64 {
    match kind {
        0 => answers::STABLE,
        1 => answers::VIOLATED,
        2 => answers::SMALLER,
        _ => answers::UNSTABLE,
    }
}

fn agrees_at(
    rt: &impl Print,
    p: Program,
    day: u16,
    w: u32,
    kind: u32,
    number: u32,
) -> io::Result<bool> {
    let expected = answers_made::made(outcome_of(kind), u64::from(number), u64::from(w));
    saying::agree(rt, Source::Check, expected, asking::check(p, day, w))
}

// The numbers are a candidate, what the check finds, and the clause, the subset or 0; then the next candidate.
pub fn agrees(rt: &impl Print, p: Program, day: u16, numbers: &[u32]) -> io::Result<bool> {
    let m = numbers.len();
    if m == 0 {
        return saying::is_number(rt, Source::Record, 3, 0, 0);
    }
    for k in (0..m).step_by(3) {
        if m - k < 3 {
            return saying::is_number(rt, Source::Record, 3, (m - k) as u64, k as u64);
        }
        if !agrees_at(rt, p, day, numbers[k], numbers[k + 1], numbers[k + 2])? {
            return Ok(false);
        }
    }
    Ok(true)
}
