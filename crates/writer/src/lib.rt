// The writer: a program's text in a lent slice.
#![tactic(auto)]

ghost use Rattle.std.specs.Prelude.{◌≡◌, true, ◌≤◌, length};
ghost use Rattle.sets.specs.Lists.{tabulate};
ghost use Rattle.lists.specs.Bytes.{Wrote};
ghost use Rattle.program.specs.Names.{name_at};
ghost use Rattle.program.specs.Valid.{valid};
ghost use Rattle.text.specs.Lines.{names_line};
ghost use Rattle.text.specs.Render.{book_items, render};
ghost use Rattle.text.specs.Writing.{Writes};
ghost use Rattle.lines.specs.Laying.{Room};

use program::{Program, Refusal};
use text::{SPACE, Written};

// A text of more bytes is no book, and no table has one so long.
const TEXT_BYTES: usize = 4096;

// The names line at the front of `out`: of a dated book the end of the line of its names becomes a space, and the two words stand behind.
fn put_first_line(
    out: &mut [u8],
    names: &[u8; program::ALL_NAME_BYTES],
    n: usize,
    dated: bool,
) -> usize
    requires { Room n 12 (names_line (book_items dated (tabulate (name_at names.now) n))) out.old }
    ensures { Wrote (names_line (book_items dated (tabulate (name_at names.now) n))) out.old result out.new }
{
    let a = lines::put_names_line(out, names, n);
    if !dated {
        return a;
    }
    out[a - 1] = SPACE;
    let b = lists::put_bytes(&mut out[a..], b"from to\n");
    a + b
}

// The whole text at the front of `out`.
fn put_text(p: Program, out: &mut [u8]) -> usize
    requires { (p.clause_count ≤ 64) × Room p.atom_count 12 (render p) out.old }
    ensures { Wrote (render p) out.old result out.new }
{
    let a = put_first_line(out, &p.atom_names, p.atom_count, p.dated);
    let b = text_row_lines::put_row_lines(p, &mut out[a..]);
    a + b
}

// The length of the text, which is written in a room of its own to learn it.
fn text_length(p: Program) -> usize
    requires { valid p ≡ true }
    ensures { result ≡ length (render p) }
{
    let mut room = [0u8; TEXT_BYTES];
    put_text(p, &mut room)
}

// The text of `p` at the start of `out`, or refusal 9 or 13 and no text.
pub fn write_program(p: Program, out: &mut [u8]) -> Written
    ensures { Writes p out.old result out.new }
{
    if !validity::is_valid(p) {
        return Err(Refusal::InvalidProgram);
    }
    if out.len() < text_length(p) {
        return Err(Refusal::SliceTooShort);
    }
    Ok(put_text(p, out))
}
