// The names line of a text: whether it is that of a dated book, where its names end, and the lower of refusals 5 and 6 that applies.
#![tactic(auto)]

ghost use Rattle.std.specs.Prelude.{◌≡◌};
ghost use Rattle.sets.specs.Lists.{any_of};
ghost use Rattle.lists.specs.Bytes.{same, pieces, left};
ghost use Rattle.program.specs.Names.{ends_dated};
ghost use Rattle.text.specs.Lines.{HasLine, is_dated};
ghost use Rattle.namesline.specs.NamesLine.{names_said, NamesEnd, names_refusal};
ghost use Rattle.program.specs.Refusals.{refused_by};

use program::{Refusal, Verdict};
use text::{NEWLINE, SPACE};

// What the items on a line are: how many, whether each is a name, and whether no two are equal.
#[derive(Clone, Copy)]
struct NamesLine {
    count: usize,
    named: bool,
    apart: bool,
}

// Whether `item` stands on the line from `from` on.
fn stands_again(line: &[u8], from: usize, item: &[u8]) -> bool
    ensures { result ≡ any_of (same item.now) (left 32 line.now from) }
{
    from <= line.len()
        && line[from..]
            .split(|b| *b == SPACE)
            .any(|x| lists::same_bytes(item, x))
}

// What the items on a line are, in one pass.
fn names_line(line: &[u8]) -> NamesLine
    ensures { result ≡ names_said (pieces 32 line.now) }
{
    let mut count: usize = 0;
    let mut named = true;
    let mut apart = true;
    let mut at: usize = 0;
    // A `while`: of each item the place is wanted too, behind which it is looked for again.
    while at <= line.len() {
        let e = lists::end_of(line, at, SPACE);
        let next = e + 1;
        named &= table_names::is_name(&line[at..e]);
        apart &= !stands_again(line, next, &line[at..e]);
        count += 1;
        at = next;
    }
    NamesLine {
        count,
        named,
        apart,
    }
}

// ---- the names of a dated book stand before " from to"
const WORD_BYTES: usize = 8;

// Whether the items on a line end in from, to behind another.
fn ends_dated(line: &[u8]) -> bool
    ensures { result ≡ ends_dated (pieces 32 line.now) }
{
    line.ends_with(b" from to")
}

// Whether a text with a first line is a dated book.
pub fn is_dated(text: &[u8]) -> bool
    requires { HasLine text.now }
    ensures { result ≡ is_dated text.now }
{
    let e = lists::end_of(text, 0, NEWLINE);
    ends_dated(&text[..e])
}

// Where the names of a text with a first line end: at the line's end, or before the two words of a dated book.
pub fn names_end(text: &[u8]) -> usize
    requires { HasLine text.now }
    ensures { NamesEnd text.now result }
{
    let e = lists::end_of(text, 0, NEWLINE);
    if ends_dated(&text[..e]) {
        e - WORD_BYTES
    } else {
        e
    }
}

// ---- the refusals
// Refusal 5 or 6 of a text with a first line, if one applies.
pub fn names_refusal(text: &[u8]) -> Verdict
    requires { HasLine text.now }
    ensures { refused_by result ≡ names_refusal text.now }
{
    let e = names_end(text);
    let names = names_line(&text[..e]);
    if 12 < names.count || !names.named {
        Err(Refusal::NamesBroken)
    } else if !names.apart {
        Err(Refusal::NamesEqual)
    } else {
        Ok(())
    }
}
