// The models of a book by the fixpoint: a place for each, and one less.
use crate::{Tried, asking, saying};
use answers::{Answer, FREE, PLACES, Source};
use program::{Outcome, Program, Refusal};
use std::io;

fn is_too_large(outcome: u64) -> bool {
    outcome == u64::from(u8::from(Refusal::TooManyMembers))
        || outcome == u64::from(u8::from(Refusal::TooLittleRoom))
}

fn agree(
    rt: &impl Print,
    list: &[u32; PLACES],
    words: &[u32],
    expected: Answer,
    found: Answer,
) -> io::Result<bool> {
    Ok(saying::agree(rt, Source::Fixpoint, expected, found)? && saying::holds(rt, list, words)?)
}

fn is_full(rt: &impl Print, p: Program, day: u16, words: &[u32]) -> io::Result<bool> {
    let mut list = [FREE; PLACES];
    let m = words.len();
    let n = m.min(PLACES);
    let found = asking::fixpoint(p, day, &mut list[..n]);
    let full = answers_made::of_outcome(Ok(Outcome::Full), m as u64, 0);
    agree(rt, &list, words, full, found)
}

// A book whose W or whose stages are too large is not asked for.
pub fn tried(rt: &impl Print, p: Program, day: u16, words: &[u32]) -> io::Result<Tried> {
    let mut list = [FREE; PLACES];
    let m = words.len();
    let n = m.min(PLACES);
    let found = asking::fixpoint(p, day, &mut list[..n]);
    if is_too_large(found.outcome) {
        let refused = answers_made::made(found.outcome, 0, 0);
        if agree(rt, &list, &[], refused, found)? {
            return Ok(Tried::NotAsked(found.outcome));
        }
        return Ok(Tried::Differs);
    }
    let complete = answers_made::of_outcome(Ok(Outcome::Complete), m as u64, 0);
    if !agree(rt, &list, words, complete, found)? {
        return Ok(Tried::Differs);
    }
    if m == 0 {
        return Ok(Tried::Agrees);
    }
    Ok(crate::tried_if(is_full(rt, p, day, &words[..m - 1])?))
}
