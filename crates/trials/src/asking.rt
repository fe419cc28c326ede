// The calls of the engine that a record is put to, each in one place.
use answers::{ANY, Answer, FREE, PLACES};
use held::{ClearAnswer, HoldAnswer};
use program::Program;
use summary::Summary;

// The clauses of an undated book are of every day.
pub const ANY_DAY: u16 = 0;

pub fn table_of(text: &[u8]) -> Program {
    reader::read_program(text).program
}

pub fn read(text: &[u8]) -> Answer {
    answers_made::of_verdict(
        answers_made::by_number(reader::read_program(text).verdict),
        0,
    )
}

pub fn write(p: Program, out: &mut [u8]) -> Answer {
    answers_made::of_written(answers_made::by_number(writer::write_program(p, out)))
}

pub fn search(p: Program, day: u16, limit: u64, list: &mut [u32]) -> Answer {
    let a = search::search(p, day, limit, list);
    answers_made::of_outcome(
        answers_made::by_number(a.outcome),
        a.written as u64,
        a.visited,
    )
}

// The number of nodes of the whole tree.
pub fn nodes_of(p: Program, day: u16) -> u64 {
    let mut list = [FREE; PLACES];
    search::search(p, day, ANY, &mut list).visited
}

// The fixpoint in full room.
pub fn fixpoint(p: Program, day: u16, list: &mut [u32]) -> Answer {
    let mut work = [0u64; 65536];
    let mut more_work = [0u64; 65536];
    let a = fixpoint::fixpoint(p, day, list, &mut work, &mut more_work);
    answers_made::of_outcome(answers_made::by_number(a.outcome), a.written as u64, 0)
}

pub fn check(p: Program, day: u16, w: u32) -> Answer {
    answers_made::of_checked(
        answers_made::by_number(checker::check(p, day, w)),
        u64::from(w),
    )
}

pub fn hold(p: Program, head: u32, body: u32, naf: u32, first: u16, last: u16) -> HoldAnswer {
    hold::hold(p, head, body, naf, first, last)
}

pub fn keep(p: Program) -> ClearAnswer {
    clear::keep(p)
}

pub fn release(p: Program) -> ClearAnswer {
    clear::release(p)
}

pub fn summarize(p: Program, words: &[u32]) -> Summary {
    summarizer::summarize(p, words)
}
