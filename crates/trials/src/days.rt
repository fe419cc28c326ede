// A book is weighed on a day, against what is stored for the clauses of that day.
use crate::{Tried, asking, candidates, checks, fixpoints, saying, searches, texts};
use answers::Source;
use program::Program;
use std::io;

// The day that a stored number is; the last where it is none.
pub fn day_of(n: u32) -> u16 {
    n.min(65535) as u16
}

// Whether the fixpoint found the models, or was refused by the number that is stored instead of 0.
fn is_found(rt: &impl Print, tried: Tried, refusal: u64) -> io::Result<bool> {
    match tried {
        Tried::Agrees => saying::is_number(rt, Source::Fixpoint, refusal, 0, 0),
        Tried::Differs => Ok(false),
        Tried::NotAsked(number) => saying::is_number(rt, Source::Fixpoint, refusal, number, 0),
    }
}

// Whether every call that weighs the clauses finds on this day the models and the nodes that are stored, the number of nodes first, and the writer gives this text.
pub fn weighs(
    rt: &impl Print,
    p: Program,
    day: u16,
    refusal: u64,
    text: &[u8],
    stored: &[u32],
) -> io::Result<bool> {
    let Some((nodes, models)) = stored.split_first() else {
        return saying::is_number(rt, Source::Record, 1, 0, 0);
    };
    let nodes = u64::from(*nodes);
    Ok(
        searches::is_complete(rt, p, day, nodes, models.len(), models, nodes)?
            && is_found(rt, fixpoints::tried(rt, p, day, models)?, refusal)?
            && candidates::agrees(rt, p, day, models)?
            && texts::is_text_of(rt, p, text)?,
    )
}

// The numbers are a day, the refusal of the fixpoint or 0, how many models there are, the nodes, the models, and candidates with what the check finds.
pub fn agrees(rt: &impl Print, text: &[u8], numbers: &[u32]) -> io::Result<bool> {
    let m = numbers.len();
    if m < 4 {
        return saying::is_number(rt, Source::Record, 4, m as u64, 0);
    }
    let count = numbers[2] as usize;
    if m - 4 < count {
        return saying::is_number(rt, Source::Record, m as u64, count as u64, 2);
    }
    let end = 4 + count;
    let day = day_of(numbers[0]);
    let p = asking::table_of(text);
    Ok(
        texts::agrees(rt, text)?
            && searches::agrees(rt, p, day, &numbers[4..end])?
            && weighs(rt, p, day, u64::from(numbers[1]), text, &numbers[3..end])?
            && checks::agrees(rt, p, day, &numbers[end..])?,
    )
}
