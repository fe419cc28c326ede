// What is printed of a record: what was found where something else was expected, as the numbers of `answers`.
use answers::{Answer, PLACES, Source};
use std::io;

pub fn print(rt: &impl Print, text: &[u8]) -> io::Result<()> {
    rt.write_all(text)
}

// What gave an answer, in eight bytes.
fn name_of(source: Source) -> &'static [u8] {
    match source {
        Source::Reader => b"reader  ",
        Source::Writer => b"writer  ",
        Source::Search => b"search  ",
        Source::Fixpoint => b"fixpoint",
        Source::Check => b"check   ",
        Source::Summary => b"summary ",
        Source::List => b"list    ",
        Source::Text => b"text    ",
        Source::Record => b"record  ",
        Source::Hold => b"hold    ",
        Source::Keep => b"keep    ",
        Source::Release => b"release ",
    }
}

pub fn print_number(rt: &impl Print, before: &[u8], n: u64) -> io::Result<()> {
    print(rt, before)?;
    rt.print(n)
}

fn print_answer(rt: &impl Print, a: Answer) -> io::Result<()> {
    print_number(rt, b" ", a.outcome)?;
    print_number(rt, b" ", a.first)?;
    print_number(rt, b" ", a.second)
}

// Whether what was found is as expected; both are printed where it is not.
pub fn agree(rt: &impl Print, source: Source, expected: Answer, found: Answer) -> io::Result<bool> {
    let agrees = answers_compared::agree(expected, found);
    if !agrees {
        print(rt, name_of(source))?;
        print_answer(rt, found)?;
        print(rt, b", expected")?;
        print_answer(rt, expected)?;
    }
    Ok(agrees)
}

// Whether no place of the list was written.
pub fn is_untouched(rt: &impl Print, list: &[u32; PLACES]) -> io::Result<bool> {
    let d = answers_compared::list_difference(list, &[]);
    agree(rt, Source::List, d.expected, d.found)
}

// Whether there is as much as is needed.
pub fn is_enough(rt: &impl Print, source: Source, least: u64, found: u64) -> io::Result<bool> {
    if least <= found {
        return Ok(true);
    }
    agree(
        rt,
        source,
        answers_made::made(answers::NUMBER, least, 0),
        answers_made::made(answers::NUMBER, found, 0),
    )
}
