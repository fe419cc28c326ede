// The fixpoint is refused by 11 exactly where W exceeds 64, which alone decides, as the stages of these books are small.
use crate::asking::{self, ROOM};
use answers::ANY;
use program::Outcome;
use std::io;

// The number is the refusal, 0 for none.
pub fn agrees(rt: &impl Print, text: &[u8], refusal: u64) -> io::Result<bool> {
    let expected = if refusal == 0 {
        answers_made::of_outcome(Ok(Outcome::Complete), ANY, 0)
    } else {
        answers_made::made(refusal, 0, 0)
    };
    asking::fixpoint_ends(rt, asking::table_of(text), ROOM, ROOM, expected)
}
