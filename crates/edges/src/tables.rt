// A table with one field changed by hand is refused by 9 wherever a call takes a table, or is still one that 9 does not refuse.
use crate::asking::{DAY, ROOM};
use crate::{asking, saying};
use answers::{ANY, Answer, FREE, PLACES, Source};
use held::ClearAnswer;
use program::{ALL_NAME_BYTES, HeldClause, MOST_CLAUSES, Program, Refusal};
use std::io;

// What the bytes hold that are lent to the writer.
const FREE_BYTE: u8 = 255;

// ---- the table
// A count is put as it is, and the largest word as the largest count.
fn count_of(value: u64) -> usize {
    if value == u64::from(FREE) {
        ANY as usize
    } else {
        value as usize
    }
}

fn low_byte(value: u64) -> u8 {
    value.min(255) as u8
}

fn low_word(value: u64) -> u32 {
    value.min(4_294_967_295) as u32
}

fn low_day(value: u64) -> u16 {
    value.min(65535) as u16
}

// The value in one place, where the array has it.
fn put<T: Copy>(places: &mut [T], at: usize, value: T) {
    if at < places.len() {
        places[at] = value;
    }
}

fn is_in_use(field: u64) -> bool {
    field <= 8 || field == 12
}

// A head, a body or a not-part in the separate place.
fn held_part(field: u64, value: u32) -> HeldClause {
    let mut held = table_fields::nothing_held();
    held.in_use = is_in_use(field);
    match field % 3 {
        0 => held.head = value,
        1 => held.body = value,
        _ => held.naf = value,
    }
    held
}

// The first name as a fact with two days in the separate place, or the days alone where it is not in use.
fn held_days(field: u64, first: u16, last: u16) -> HeldClause {
    let in_use = is_in_use(field);
    HeldClause {
        in_use,
        head: u32::from(in_use),
        body: 0,
        naf: 0,
        first,
        last,
    }
}

// The table with one field changed: 0 the names, 1 a byte of a name, 2 the clauses, 3 to 5 a head, a body, a not-part,
// 6 to 8 a head, a body, a not-part that is held, and 9 to 11 the same in a place that is not in use,
// 12 the two days of a clause that is held, and 13 the same in a place that is not in use, of which the place is the first and the value the last,
// 14 a first day, 15 a last day, 16 whether the book was dated.
fn forged(text: &[u8], field: u64, at: usize, value: u64) -> Program {
    let mut p = asking::table_of(text);
    match field {
        0 => p.atom_count = count_of(value),
        1 => put(&mut p.atom_names, at, low_byte(value)),
        2 => p.clause_count = count_of(value),
        3 => put(&mut p.heads, at, low_word(value)),
        4 => put(&mut p.bodies, at, low_word(value)),
        5 => put(&mut p.nafs, at, low_word(value)),
        6..=11 => p.held = held_part(field, low_word(value)),
        12 | 13 => p.held = held_days(field, low_day(at as u64), low_day(value)),
        14 => put(&mut p.firsts, at, low_day(value)),
        15 => put(&mut p.lasts, at, low_day(value)),
        16 if at < MOST_CLAUSES => p.dated = 0 < value,
        _ => {}
    }
    p
}

// ---- the calls that take it
fn check(p: Program) -> Answer {
    answers_made::of_checked(answers_made::by_number(checker::check(p, DAY, 0)), 0)
}

fn search_ends(rt: &impl Print, p: Program, refused: Answer) -> io::Result<bool> {
    let mut list = [FREE; PLACES];
    let a = search::search(p, DAY, ANY, &mut list);
    let found = answers_made::of_outcome(
        answers_made::by_number(a.outcome),
        a.written as u64,
        a.visited,
    );
    Ok(saying::agree(rt, Source::Search, refused, found)? && saying::is_untouched(rt, &list)?)
}

fn write_ends(rt: &impl Print, p: Program, refused: Answer) -> io::Result<bool> {
    let mut out = [FREE_BYTE; 4096];
    let found = answers_made::of_written(answers_made::by_number(writer::write_program(
        p, &mut out,
    )));
    Ok(
        saying::agree(rt, Source::Writer, refused, found)?
            && saying::is_enough(
                rt,
                Source::Text,
                4096,
                lists::count_of(&out, FREE_BYTE) as u64,
            )?,
    )
}

fn summary_ends(rt: &impl Print, p: Program, refused: Answer) -> io::Result<bool> {
    let s = summarizer::summarize(p, &[FREE]);
    let found = answers_made::of_verdict(answers_made::by_number(s.verdict), 0);
    saying::agree(rt, Source::Summary, refused, found)
}

// Whether two tables are the same at the place `k` of their names and clauses.
fn same_at(p: Program, q: Program, k: usize) -> bool {
    p.atom_names.get(k) == q.atom_names.get(k)
        && p.heads.get(k) == q.heads.get(k)
        && p.bodies.get(k) == q.bodies.get(k)
        && p.nafs.get(k) == q.nafs.get(k)
        && p.firsts.get(k) == q.firsts.get(k)
        && p.lasts.get(k) == q.lasts.get(k)
}

fn same_held(a: HeldClause, b: HeldClause) -> bool {
    a.in_use == b.in_use
        && a.head == b.head
        && a.body == b.body
        && a.naf == b.naf
        && a.first == b.first
        && a.last == b.last
}

// Whether a call gives the table back as it came.
fn is_given_back(rt: &impl Print, source: Source, p: Program, q: Program) -> io::Result<bool> {
    for k in 0..ALL_NAME_BYTES {
        if !same_at(p, q, k) {
            return saying::is_enough(rt, source, 97, k as u64);
        }
    }
    let same = p.atom_count == q.atom_count
        && p.clause_count == q.clause_count
        && p.dated == q.dated
        && same_held(p.held, q.held);
    saying::is_enough(rt, source, 1, u64::from(same))
}

// The days are reversed, which a dated table refuses by a higher number.
fn hold_ends(rt: &impl Print, p: Program, refused: Answer) -> io::Result<bool> {
    let a = hold::hold(p, 1, 0, 0, 1, 0);
    let found = answers_made::of_held(answers_made::by_number(a.status));
    Ok(
        saying::agree(rt, Source::Hold, refused, found)?
            && is_given_back(rt, Source::Hold, p, a.program)?,
    )
}

fn clear_ends(
    rt: &impl Print,
    source: Source,
    a: ClearAnswer,
    p: Program,
    expected: Answer,
) -> io::Result<bool> {
    let found = answers_made::of_cleared(answers_made::by_number(a.status));
    Ok(saying::agree(rt, source, expected, found)? && is_given_back(rt, source, p, a.program)?)
}

// Whether the eight calls that take a table refuse it, with lists, counts, text and the table itself as they were.
fn is_refused(rt: &impl Print, p: Program, refused: Answer) -> io::Result<bool> {
    Ok(
        saying::agree(rt, Source::Check, refused, check(p))?
            && search_ends(rt, p, refused)?
            && asking::fixpoint_ends(rt, p, ROOM, ROOM, refused)?
            && write_ends(rt, p, refused)?
            && summary_ends(rt, p, refused)?
            && hold_ends(rt, p, refused)?
            && clear_ends(rt, Source::Keep, clear::keep(p), p, refused)?
            && clear_ends(rt, Source::Release, clear::release(p), p, refused)?,
    )
}

// What the check says of the empty word is no refusal.
fn is_taken(rt: &impl Print, p: Program) -> io::Result<bool> {
    let found = check(p);
    if answers::COMPLETE <= found.outcome {
        return Ok(true);
    }
    saying::agree(
        rt,
        Source::Check,
        answers_made::made(answers::STABLE, ANY, 0),
        found,
    )
}

// What keeping and letting go find: a clause, or with the place not in use nothing.
fn held_as(field: u64) -> u64 {
    if is_in_use(field) {
        answers::CLEARED
    } else {
        answers::NOTHING_HELD
    }
}

// Whether the table that was read is given back where what a table holds is let go, and what is held is kept.
fn lets_go(rt: &impl Print, text: &[u8], field: u64, p: Program) -> io::Result<bool> {
    let expected = answers_made::made(held_as(field), 0, 0);
    let kept = answers_made::of_cleared(answers_made::by_number(clear::keep(p).status));
    Ok(
        saying::agree(rt, Source::Keep, expected, kept)?
            && clear_ends(
                rt,
                Source::Release,
                clear::release(p),
                asking::table_of(text),
                expected,
            )?,
    )
}

// Whether another clause is refused by 16, with the table as it was.
fn holds_one(rt: &impl Print, p: Program) -> io::Result<bool> {
    let refused = answers_made::made(u64::from(u8::from(Refusal::AlreadyHeld)), 0, 0);
    hold_ends(rt, p, refused)
}

// What a table that is not refused says of what it holds.
fn is_held(rt: &impl Print, text: &[u8], field: u64, p: Program) -> io::Result<bool> {
    if field < 6 || 13 < field {
        return Ok(true);
    }
    Ok((!is_in_use(field) || holds_one(rt, p)?) && lets_go(rt, text, field, p)?)
}

// The numbers are a field, a place, a value, and the refusal of the table that they make, 0 where it is not refused.
pub fn agrees(rt: &impl Print, text: &[u8], line: &[u8]) -> io::Result<bool> {
    let field = records::number_at(line, 0);
    let place = records::number_at(line, field.next);
    let value = records::number_at(line, place.next);
    let refusal = records::number_at(line, value.next);
    let p = forged(text, field.value, place.value as usize, value.value);
    if refusal.value == 0 {
        return Ok(is_taken(rt, p)? && is_held(rt, text, field.value, p)?);
    }
    is_refused(rt, p, answers_made::made(refusal.value, 0, 0))
}
