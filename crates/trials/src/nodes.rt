// A book is searched against the stored number of its nodes and, for each of its models, how many are visited when it is come to.
use crate::asking::ANY_DAY;
use crate::{asking, saying};
use answers::{ANY, Answer, FREE, PLACES, Source};
use program::{Outcome, Program};
use std::io;

// Whether the search answers as expected with so many nodes and places.
fn ends(
    rt: &impl Print,
    p: Program,
    limit: u64,
    lent: usize,
    expected: Answer,
) -> io::Result<bool> {
    let mut list = [FREE; PLACES];
    let n = lent.min(PLACES);
    let found = asking::search(p, ANY_DAY, limit, &mut list[..n]);
    saying::agree(rt, Source::Search, expected, found)
}

// Behind k models comes one with so many nodes visited: the run is full there without a place for it, and spent with one node less.
fn comes(rt: &impl Print, p: Program, k: usize, visited: u64) -> io::Result<bool> {
    let before = visited.wrapping_sub(1);
    let full = answers_made::of_outcome(Ok(Outcome::Full), k as u64, visited);
    let spent = answers_made::of_outcome(Ok(Outcome::Spent), k as u64, before);
    Ok(ends(rt, p, ANY, k, full)? && ends(rt, p, before, PLACES, spent)?)
}

// The numbers are that of all nodes, then one for each model.
pub fn agrees(rt: &impl Print, p: Program, numbers: &[u32]) -> io::Result<bool> {
    let Some((nodes, visits)) = numbers.split_first() else {
        return saying::is_number(rt, Source::Record, 1, 0, 0);
    };
    for (k, visited) in visits.iter().enumerate() {
        if !comes(rt, p, k, u64::from(*visited))? {
            return Ok(false);
        }
    }
    let nodes = u64::from(*nodes);
    let all = answers_made::of_outcome(Ok(Outcome::Complete), visits.len() as u64, nodes);
    ends(rt, p, nodes, PLACES, all)
}
