// The fixpoint has room for the largest stage of a book, and one place less in either slice is too few: refusal 12.
use crate::asking::ROOM;
use crate::{asking, saying};
use answers::{ANY, Source};
use program::{Outcome, Refusal};
use std::io;

pub fn agrees(rt: &impl Print, text: &[u8], largest: u64) -> io::Result<bool> {
    let p = asking::table_of(text);
    let room = largest as usize;
    if room == 0 {
        return saying::is_enough(rt, Source::Record, 1, 0);
    }
    let taken = answers_made::of_outcome(Ok(Outcome::Complete), ANY, 0);
    let refused = answers_made::of_outcome(Err(u8::from(Refusal::TooLittleRoom)), 0, 0);
    Ok(
        asking::fixpoint_ends(rt, p, room, room, taken)?
            && asking::fixpoint_ends(rt, p, room - 1, room, refused)?
            && asking::fixpoint_ends(rt, p, ROOM, room - 1, refused)?
            && asking::fixpoint_ends(rt, p, 0, ROOM, refused)?,
    )
}
