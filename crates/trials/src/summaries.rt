// A list is summed up: which values each name shows and whether it is settled, against stored numbers.
use crate::asking::ANY_DAY;
use crate::{asking, saying, searches};
use answers::{FREE, Source};
use program::{MOST_ATOMS, Program, Refusal, Verdict};
use std::io;
use summary::Summary;

// The number at the place `k`, 0 where there is none.
fn stored_at(numbers: &[u32], k: usize) -> u64 {
    u64::from(numbers.get(k).copied().unwrap_or(0))
}

// Whether a summary shows these values and settles the names with a 1: a name without a number shows none and is not settled.
fn shows(rt: &impl Print, s: Summary, values: &[u32], settled: &[u32]) -> io::Result<bool> {
    for i in 0..MOST_ATOMS {
        let expected = answers_made::made(
            answers::NUMBER,
            stored_at(values, i),
            stored_at(settled, i),
        );
        let found = answers_made::made(
            answers::NUMBER,
            u64::from(s.occurring[i]),
            u64::from(s.settled[i]),
        );
        if !saying::agree(rt, Source::Summary, expected, found)? {
            return Ok(false);
        }
    }
    Ok(true)
}

pub fn has_verdict(rt: &impl Print, s: Summary, verdict: Verdict) -> io::Result<bool> {
    saying::agree(
        rt,
        Source::Summary,
        answers_made::of_verdict(answers_made::by_number(verdict), 0),
        answers_made::of_verdict(answers_made::by_number(s.verdict), 0),
    )
}

// Whether the list is summed up so.
fn is_summed(
    rt: &impl Print,
    p: Program,
    list: &[u32],
    verdict: Verdict,
    values: &[u32],
    settled: &[u32],
) -> io::Result<bool> {
    let s = asking::summarize(p, list);
    Ok(has_verdict(rt, s, verdict)? && shows(rt, s, values, settled)?)
}

// An empty list, and one with a word outside the names.
fn agrees_bare(rt: &impl Print, p: Program) -> io::Result<bool> {
    Ok(
        is_summed(rt, p, &[], Ok(()), &[], &[])?
            && is_summed(rt, p, &[FREE], Err(Refusal::OutsideWord), &[], &[])?,
    )
}

// The numbers are the values of each name, 1 for each name that is settled and 0 for another, and the list: of a book with clauses its models.
pub fn agrees(rt: &impl Print, p: Program, numbers: &[u32]) -> io::Result<bool> {
    let n = p.atom_count;
    let m = numbers.len();
    if MOST_ATOMS < n {
        return saying::is_number(rt, Source::Reader, MOST_ATOMS as u64, n as u64, 0);
    }
    if m < 2 * n {
        return saying::is_number(rt, Source::Record, 2 * n as u64, m as u64, 0);
    }
    let list = &numbers[2 * n..];
    if 0 < p.clause_count && !searches::lists_all(rt, p, ANY_DAY, list)? {
        return Ok(false);
    }
    Ok(is_summed(rt, p, list, Ok(()), &numbers[..n], &numbers[n..2 * n])? && agrees_bare(rt, p)?)
}
