// A clause is held on a book, against stored answers: every other call passes over it, it is let go, and it is kept as the last clause.
use crate::{asking, candidates, days, saying};
use answers::{Answer, Source};
use held::{ClearAnswer, HoldAnswer};
use program::{Program, Refusal};
use std::io;

// Where the models of the book stand among the numbers.
const MODELS: usize = 10;

// What holding finds by its stored number: 0 and 1 for a new and an equal clause, else the refusal.
fn held_as(found: u64) -> Answer {
    let outcome = match found {
        0 => answers::NEW,
        1 => answers::EQUAL,
        _ => found,
    };
    answers_made::made(outcome, 0, 0)
}

// What keeping and letting go find then.
fn cleared_as(found: u64) -> Answer {
    let outcome = if found < 2 {
        answers::CLEARED
    } else {
        answers::NOTHING_HELD
    };
    answers_made::made(outcome, 0, 0)
}

// Whether a second clause is refused by 16 where one is held, with the table as it was; its days are reversed, which a dated table refuses by a higher number.
fn holds_one(
    rt: &impl Print,
    p: Program,
    day: u16,
    found: u64,
    text: &[u8],
    stored: &[u32],
) -> io::Result<bool> {
    if 2 <= found {
        return Ok(true);
    }
    let again = asking::hold(p, 1, 0, 0, 1, 0);
    let refused = answers_made::made(u64::from(u8::from(Refusal::AlreadyHeld)), 0, 0);
    let answer = answers_made::of_held(answers_made::by_number(again.status));
    Ok(
        saying::agree(rt, Source::Hold, refused, answer)?
            && days::weighs(rt, again.program, day, 0, text, stored)?,
    )
}

// Whether the place was cleared where something was held, and what the table weighs then.
fn clears(
    rt: &impl Print,
    source: Source,
    a: ClearAnswer,
    day: u16,
    found: u64,
    text: &[u8],
    stored: &[u32],
) -> io::Result<bool> {
    let answer = answers_made::of_cleared(answers_made::by_number(a.status));
    Ok(
        saying::agree(rt, source, cleared_as(found), answer)?
            && days::weighs(rt, a.program, day, 0, text, stored)?,
    )
}

// Whether the clause is held so, passed over and let go, against what the book weighs.
fn is_held(
    rt: &impl Print,
    a: HoldAnswer,
    day: u16,
    found: u64,
    book: &[u8],
    stored: &[u32],
) -> io::Result<bool> {
    let p = a.program;
    let answer = answers_made::of_held(answers_made::by_number(a.status));
    Ok(
        saying::agree(rt, Source::Hold, held_as(found), answer)?
            && holds_one(rt, p, day, found, book, stored)?
            && days::weighs(rt, p, day, 0, book, stored)?
            && clears(
                rt,
                Source::Release,
                asking::release(p),
                day,
                found,
                book,
                stored,
            )?,
    )
}

// Whether it is kept, against what the whole text weighs, by the numbers from `at` on; before these stand the models of the book,
// of which the check must call p-stable just those that stay.
fn is_kept(
    rt: &impl Print,
    p: Program,
    day: u16,
    found: u64,
    text: &[u8],
    numbers: &[u32],
    at: usize,
) -> io::Result<bool> {
    if at < MODELS {
        return saying::is_number(rt, Source::Record, MODELS as u64, at as u64, 0);
    }
    if numbers.len() <= at {
        return saying::is_number(rt, Source::Record, 1, 0, at as u64);
    }
    let a = asking::keep(p);
    let q = a.program;
    Ok(
        clears(rt, Source::Keep, a, day, found, text, &numbers[at..])?
            && candidates::agrees_on(rt, q, day, &numbers[MODELS..at], &numbers[at + 1..])?,
    )
}

// The numbers are the three parts of the clause and its two days, a day to weigh on, what holding it finds,
// how many bytes of the text are the book, since the line of a clause that is taken is behind these, and how many models the book has;
// then the nodes and the models of the book, and the nodes and the models of the whole text.
pub fn agrees(rt: &impl Print, text: &[u8], numbers: &[u32]) -> io::Result<bool> {
    let m = numbers.len();
    if m < 11 {
        return saying::is_number(rt, Source::Record, 11, m as u64, 0);
    }
    let size = numbers[7] as usize;
    if text.len() < size {
        return saying::is_number(rt, Source::Record, text.len() as u64, size as u64, 7);
    }
    let count = numbers[8] as usize;
    if m < count {
        return saying::is_number(rt, Source::Record, m as u64, count as u64, 8);
    }
    let end = MODELS + count;
    if m < end {
        return saying::is_number(rt, Source::Record, m as u64, end as u64, 9);
    }
    let p = asking::table_of(&text[..size]);
    let first = days::day_of(numbers[3]);
    let last = days::day_of(numbers[4]);
    let a = asking::hold(p, numbers[0], numbers[1], numbers[2], first, last);
    let day = days::day_of(numbers[5]);
    let found = u64::from(numbers[6]);
    Ok(
        is_held(rt, a, day, found, &text[..size], &numbers[9..end])?
            && is_kept(rt, a.program, day, found, text, numbers, end)?,
    )
}
