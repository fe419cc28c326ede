// The calls of the engine that more than one kind of record is put to.
use crate::saying;
use answers::{Answer, FREE, PLACES, Source};
use program::Program;
use std::io;

// The day on which every table is tried.
pub const DAY: u16 = 0;

// The words that a working slice has at the most.
pub const ROOM: usize = 65536;

pub fn table_of(text: &[u8]) -> Program {
    reader::read_program(text).program
}

// The fixpoint in so many words of each working slice, or in as many as there are.
fn fixpoint(p: Program, list: &mut [u32], one: usize, other: usize) -> Answer {
    let mut first = [0u64; ROOM];
    let mut second = [0u64; ROOM];
    let m = one.min(ROOM);
    let n = other.min(ROOM);
    let a = fixpoint::fixpoint(p, DAY, list, &mut first[..m], &mut second[..n]);
    answers_made::of_outcome(answers_made::by_number(a.outcome), a.written as u64, 0)
}

// Whether the fixpoint answers as expected with so much room in each working slice; a refusal leaves the list as it was.
pub fn fixpoint_ends(
    rt: &impl Print,
    p: Program,
    one: usize,
    other: usize,
    expected: Answer,
) -> io::Result<bool> {
    let mut list = [FREE; PLACES];
    let found = fixpoint(p, &mut list, one, other);
    Ok(
        saying::agree(rt, Source::Fixpoint, expected, found)?
            && (answers::COMPLETE <= expected.outcome || saying::is_untouched(rt, &list)?),
    )
}
