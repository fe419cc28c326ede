// What is printed of a book: the answer that disagrees and the one that was expected.
use answers::{Answer, PLACES, Source};
use std::io;

pub fn print(rt: &impl Print, text: &[u8]) -> io::Result<()> {
    rt.write_all(text)
}

pub fn print_number(rt: &impl Print, n: u64) -> io::Result<()> {
    rt.print(n)
}

// What gave an answer, in nine bytes.
fn name_of(source: Source) -> &'static [u8] {
    match source {
        Source::Reader => b"reader   ",
        Source::Writer => b"writer   ",
        Source::Search => b"search   ",
        Source::Fixpoint => b"fixpoint ",
        Source::Check => b"check    ",
        Source::Summary => b"summary  ",
        Source::List => b"list     ",
        Source::Text => b"text     ",
        Source::Record => b"record   ",
        Source::Hold => b"hold     ",
        Source::Keep => b"keep     ",
        Source::Release => b"release  ",
    }
}

// How a call ended, in nine bytes; a refusal's number stands behind.
fn outcome_name(outcome: u64) -> &'static [u8] {
    match outcome {
        answers::ACCEPTED => b"accepted ",
        answers::COMPLETE => b"complete ",
        answers::FULL => b"full     ",
        answers::SPENT => b"spent    ",
        answers::STABLE => b"stable   ",
        answers::VIOLATED => b"violated ",
        answers::SMALLER => b"smaller  ",
        answers::NUMBER => b"number   ",
        answers::UNSTABLE => b"unstable ",
        answers::NEW => b"new      ",
        answers::EQUAL => b"equal    ",
        answers::CLEARED => b"cleared  ",
        answers::NOTHING_HELD => b"nothing  ",
        refusal if refusal < answers::COMPLETE => b"refused  ",
        _ => b"",
    }
}

fn print_outcome(rt: &impl Print, outcome: u64) -> io::Result<()> {
    print(rt, outcome_name(outcome))?;
    if answers::ACCEPTED < outcome && outcome < answers::COMPLETE {
        print_number(rt, outcome)?;
        print(rt, b" ")?;
    }
    Ok(())
}

fn print_answer(rt: &impl Print, a: Answer) -> io::Result<()> {
    print_outcome(rt, a.outcome)?;
    print_number(rt, a.first)?;
    print(rt, b" ")?;
    print_number(rt, a.second)
}

// Whether an answer is as expected; where not, both are printed.
pub fn agree(rt: &impl Print, source: Source, expected: Answer, found: Answer) -> io::Result<bool> {
    if answers_compared::agree(expected, found) {
        return Ok(true);
    }
    print(rt, name_of(source))?;
    print_answer(rt, found)?;
    print(rt, b", expected ")?;
    print_answer(rt, expected)?;
    Ok(false)
}

// Whether a number is as expected; where not, both are printed, each with its place.
pub fn is_number(
    rt: &impl Print,
    source: Source,
    expected: u64,
    found: u64,
    at: u64,
) -> io::Result<bool> {
    agree(
        rt,
        source,
        answers_made::made(answers::NUMBER, expected, at),
        answers_made::made(answers::NUMBER, found, at),
    )
}

// Whether a list holds the words, and behind them what it held before.
pub fn holds(rt: &impl Print, list: &[u32; PLACES], words: &[u32]) -> io::Result<bool> {
    let d = answers_compared::list_difference(list, words);
    agree(rt, Source::List, d.expected, d.found)
}
