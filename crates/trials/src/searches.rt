// A book is searched with limits and lists at both sides of what it needs, against its stored models.
ghost use Rattle.std.specs.Prelude.{◌≤◌, length};

use crate::{asking, saying};
use answers::{ANY, Answer, FREE, PLACES, Source};
use program::{Outcome, Program};
use std::io;

// Whether `w` is the last word over so many atoms.
fn is_last(w: u32, atoms: usize) -> bool {
    w < FREE && table_fields::is_word(atoms, w) && !table_fields::is_word(atoms, w + 1)
}

// How many of the words stand before the last word over so many atoms, which is the tree's last node where it is a model.
fn before_last(words: &[u32], atoms: usize) -> usize
    ensures { result ≤ length words.now }
{
    match words.split_last() {
        Some((w, before)) if is_last(*w, atoms) => before.len(),
        _ => words.len(),
    }
}

// Whether the search answers as expected with so many nodes and places, and lists the words.
fn lists(
    rt: &impl Print,
    p: Program,
    day: u16,
    limit: u64,
    lent: usize,
    words: &[u32],
    expected: Answer,
) -> io::Result<bool> {
    let mut list = [FREE; PLACES];
    let n = lent.min(PLACES);
    let found = asking::search(p, day, limit, &mut list[..n]);
    Ok(saying::agree(rt, Source::Search, expected, found)? && saying::holds(rt, &list, words)?)
}

fn is_spent(rt: &impl Print, p: Program, day: u16, limit: u64, words: &[u32]) -> io::Result<bool> {
    let expected = answers_made::of_outcome(Ok(Outcome::Spent), words.len() as u64, limit);
    lists(rt, p, day, limit, PLACES, words, expected)
}

fn is_full(rt: &impl Print, p: Program, day: u16, limit: u64, words: &[u32]) -> io::Result<bool> {
    let expected = answers_made::of_outcome(Ok(Outcome::Full), words.len() as u64, ANY);
    lists(rt, p, day, limit, words.len(), words, expected)
}

// Whether the search is complete with so many nodes and places, and lists the words.
pub fn is_complete(
    rt: &impl Print,
    p: Program,
    day: u16,
    limit: u64,
    lent: usize,
    words: &[u32],
    nodes: u64,
) -> io::Result<bool> {
    let expected = answers_made::of_outcome(Ok(Outcome::Complete), words.len() as u64, nodes);
    lists(rt, p, day, limit, lent, words, expected)
}

// The runs that are cut: one node less than the tree has, one place less than there are models, no place.
fn agrees_cut(
    rt: &impl Print,
    p: Program,
    day: u16,
    nodes: u64,
    words: &[u32],
) -> io::Result<bool> {
    let m = words.len();
    let n = before_last(words, p.atom_count);
    if nodes == 0 {
        return has_nodes(rt, p, day, 1);
    }
    if !is_spent(rt, p, day, nodes - 1, &words[..n])? {
        return Ok(false);
    }
    if m == 0 {
        return Ok(true);
    }
    Ok(is_full(rt, p, day, nodes, &words[..m - 1])? && is_full(rt, p, day, ANY, &[])?)
}

// A book of more than ten names is searched to its end just twice.
pub fn agrees(rt: &impl Print, p: Program, day: u16, words: &[u32]) -> io::Result<bool> {
    let nodes = asking::nodes_of(p, day);
    let few = is_spent(rt, p, day, 0, &[])?
        && is_spent(rt, p, day, 1, &[])?
        && is_complete(rt, p, day, nodes, words.len(), words, nodes)?;
    if !few || 10 < p.atom_count {
        return Ok(few);
    }
    Ok(is_complete(rt, p, day, ANY, PLACES, words, nodes)? && agrees_cut(rt, p, day, nodes, words)?)
}

// Whether the search lists just these words and says that they are all.
pub fn lists_all(rt: &impl Print, p: Program, day: u16, words: &[u32]) -> io::Result<bool> {
    is_complete(rt, p, day, ANY, PLACES, words, ANY)
}

// Whether the tree has so many nodes.
fn has_nodes(rt: &impl Print, p: Program, day: u16, nodes: u64) -> io::Result<bool> {
    saying::is_number(rt, Source::Search, nodes, asking::nodes_of(p, day), 0)
}
