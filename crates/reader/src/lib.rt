// The reader: a text's table, or the lowest refusal that applies.
#![tactic(auto)]

ghost use Rattle.std.specs.Prelude.{◌≡◌, length};
ghost use Rattle.text.specs.Lines.{names};
ghost use Rattle.text.specs.Refusals.{opening_refusal};
ghost use Rattle.text.specs.Reading.{read_of};

use program::Refusal;
use text::{Read, SPACE};

fn atom_count(text: &[u8]) -> usize
    requires { opening_refusal text.now ≡ 0 }
    ensures { result ≡ length (names text.now) }
{
    let e = namesline::names_end(text);
    lists::count_of(&text[..e], SPACE) + 1
}

// What a text says whose bytes and names line are in order, or the lowest of refusals 7, 8 and 22 that applies.
fn read_lines(text: &[u8]) -> Read
    requires { opening_refusal text.now ≡ 0 }
    ensures { result ≡ read_of text.now }
{
    let n = atom_count(text);
    let dated = namesline::is_dated(text);
    let lines = clauselines::clause_lines(text, n, dated);
    if lines.broken {
        return text_table::refused(Refusal::ClauseBroken);
    }
    if lines.zeros {
        return text_table::refused(Refusal::OnlyZeros);
    }
    if lines.reversed {
        return text_table::refused(Refusal::DaysReversed);
    }
    let program = text_table::table_of(text, n, dated, lines);
    Read {
        verdict: Ok(()),
        program,
    }
}

// What the text says, or the lowest refusal that applies and the all-zero table.
pub fn read_program(text: &[u8]) -> Read
    ensures { result ≡ read_of text.now }
{
    match form::opening_refusal(text) {
        Ok(()) => read_lines(text),
        Err(refusal) => text_table::refused(refusal),
    }
}
