// A book is read, and written back into a byte more than its length, into its length, and into a byte less.
use crate::{asking, saying};
use answers::Source;
use program::{Program, Refusal, Verdict};
use std::io;
use text::Written;

// The bytes of which so many are lent as the writer is to have, and what they hold before the call.
const BYTES: usize = 4097;

const FREE: u8 = 255;

fn byte_at(text: &[u8], k: usize) -> u64 {
    u64::from(text.get(k).copied().unwrap_or(FREE))
}

// Whether the bytes are the text, and behind it what they were before.
fn holds(rt: &impl Print, out: &[u8; BYTES], text: &[u8]) -> io::Result<bool> {
    for (k, b) in out.iter().enumerate() {
        if !saying::is_number(rt, Source::Text, byte_at(text, k), u64::from(*b), k as u64)? {
            return Ok(false);
        }
    }
    Ok(true)
}

// Whether the writer answers so with so many bytes, and leaves the text in them.
fn is_written(
    rt: &impl Print,
    p: Program,
    lent: usize,
    written: Written,
    text: &[u8],
) -> io::Result<bool> {
    let mut out = [FREE; BYTES];
    let n = lent.min(BYTES);
    let found = asking::write(p, &mut out[..n]);
    let expected = answers_made::of_written(answers_made::by_number(written));
    Ok(saying::agree(rt, Source::Writer, expected, found)? && holds(rt, &out, text)?)
}

// Whether the writer gives this text.
pub fn is_text_of(rt: &impl Print, p: Program, text: &[u8]) -> io::Result<bool> {
    is_written(rt, p, BYTES, Ok(text.len()), text)
}

pub fn agrees(rt: &impl Print, text: &[u8]) -> io::Result<bool> {
    let n = text.len();
    if n == 0 {
        return saying::is_number(rt, Source::Record, 1, 0, 0);
    }
    let p = asking::table_of(text);
    let accepted = answers_made::of_verdict(Ok(()), 0);
    Ok(
        saying::agree(rt, Source::Reader, accepted, asking::read(text))?
            && is_text_of(rt, p, text)?
            && is_written(rt, p, n, Ok(n), text)?
            && is_written(rt, p, n - 1, Err(Refusal::SliceTooShort), &[])?,
    )
}
