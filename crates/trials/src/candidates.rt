// Candidates are put to the check: the lowest words, each stored model and its neighbours, and words outside the book's names.
use crate::{asking, saying, summaries};
use answers::{Answer, FREE, PLACES, Source};
use program::{Program, Refusal, Verdict};
use stable::Checked;
use std::io;

// How many of the lowest words are candidates.
const LOWEST: usize = 64;

// How many candidates a stored model gives: itself, and one for each literal there can be.
const AROUND: usize = 25;

fn is_listed(words: &[u32], w: u32) -> bool {
    words.iter().any(|x| *x == w)
}

// The candidate `j`: the lowest words first, then for each stored model the words with one literal more or less, and itself.
fn candidate(words: &[u32], j: usize) -> u32 {
    if j < LOWEST {
        return j as u32;
    }
    let k = (j - LOWEST) / AROUND;
    let b = (j - LOWEST) % AROUND;
    match words.get(k) {
        Some(w) if b < 24 => *w ^ (1 << b),
        Some(w) => *w,
        None => FREE,
    }
}

// Whether an answer other than p-stable can be true of the candidate: a number of a clause, or a smaller subset.
fn can_be(a: Answer, w: u64, clauses: u64) -> bool {
    match a.outcome {
        answers::VIOLATED => a.first < clauses,
        answers::SMALLER => a.first & w == a.first && a.first != w,
        _ => false,
    }
}

// What is expected of a candidate: p-stable, or what was found where that can be true.
fn expected_of(found: Answer, w: u64, clauses: u64, stable: bool) -> Answer {
    if stable {
        return answers_made::of_checked(Ok(Checked::Stable), w);
    }
    if can_be(found, w, clauses) {
        return found;
    }
    answers_made::made(answers::UNSTABLE, 0, w)
}

// Whether the check calls the candidate p-stable exactly where it should.
fn agrees_at(rt: &impl Print, p: Program, day: u16, w: u32, stable: bool) -> io::Result<bool> {
    let found = asking::check(p, day, w);
    let expected = expected_of(found, u64::from(w), p.clause_count as u64, stable);
    saying::agree(rt, Source::Check, expected, found)
}

// Whether the check calls each of the words p-stable exactly where it is among those listed.
pub fn agrees_on(
    rt: &impl Print,
    p: Program,
    day: u16,
    words: &[u32],
    listed: &[u32],
) -> io::Result<bool> {
    for w in words {
        if !agrees_at(rt, p, day, *w, is_listed(listed, *w))? {
            return Ok(false);
        }
    }
    Ok(true)
}

// A p-stable model lies in no other, so one literal more or less makes it none.
fn agrees_inside(rt: &impl Print, p: Program, day: u16, words: &[u32]) -> io::Result<bool> {
    let m = words.len();
    if PLACES < m {
        return saying::is_number(rt, Source::Record, PLACES as u64, m as u64, 0);
    }
    for j in 0..LOWEST + AROUND * m {
        let w = candidate(words, j);
        let stable = is_listed(words, w);
        let asked = stable || table_fields::is_word(p.atom_count, w);
        if asked && !agrees_at(rt, p, day, w, stable)? {
            return Ok(false);
        }
    }
    Ok(true)
}

fn is_outside(rt: &impl Print, p: Program, day: u16, w: u32) -> io::Result<bool> {
    let refused = answers_made::of_checked(Err(u8::from(Refusal::OutsideWord)), u64::from(w));
    saying::agree(rt, Source::Check, refused, asking::check(p, day, w))
}

fn sums_up(rt: &impl Print, p: Program, w: u32, verdict: Verdict) -> io::Result<bool> {
    summaries::has_verdict(rt, asking::summarize(p, &[0, w]), verdict)
}

// Refusal 10: the first word with a bit too high, and the last one, by the check and in a list that is summed up.
fn agrees_outside(rt: &impl Print, p: Program, day: u16) -> io::Result<bool> {
    let atoms = p.atom_count;
    if program::MOST_ATOMS < atoms {
        return saying::is_number(rt, Source::Reader, 12, atoms as u64, 0);
    }
    let first: u32 = 1 << (2 * atoms);
    Ok(
        is_outside(rt, p, day, first)?
            && is_outside(rt, p, day, FREE)?
            && sums_up(rt, p, first, Err(Refusal::OutsideWord))?
            && sums_up(rt, p, 3, Ok(()))?,
    )
}

pub fn agrees(rt: &impl Print, p: Program, day: u16, words: &[u32]) -> io::Result<bool> {
    Ok(agrees_inside(rt, p, day, words)? && agrees_outside(rt, p, day)?)
}
