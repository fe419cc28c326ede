// A text's table, and the all-zero table of a refusal.
#![tactic(auto)]

ghost use Rattle.std.specs.Prelude.{◌≡◌, true, false, ◌≤◌, length, replicate};
ghost use Rattle.sets.specs.Lists.{every};
ghost use Rattle.lists.specs.Bytes.{pieces, padded};
ghost use Rattle.program.specs.Names.{is_name};
ghost use Rattle.text.specs.Lines.{is_dated, names};
ghost use Rattle.text.specs.Tables.{placed, zero_table};
ghost use Rattle.text.specs.Refusals.{opening_refusal, clause_broken};
ghost use Rattle.text.specs.Reading.{program_of, refused_with};
ghost use Rattle.clauselines.specs.Gathered.{clauses_of};

use clauselines::ClauseLines;
use program::Program;
use text::{ReadWith, SPACE};

// The names on a line, each at the front of its place of eight bytes; `out` is all zero before.
fn put_names(out: &mut [u8], line: &[u8])
    requires { (every is_name (pieces 32 line.now) ≡ true) × (length (pieces 32 line.now) ≤ 12) × (out.old ≡ replicate 96 0) }
    ensures { out.new ≡ padded 96 (placed (pieces 32 line.now)) }
{
    let mut a: usize = 0;
    for name in line.split(|b| *b == SPACE) {
        lists::put_bytes(&mut out[a..], name);
        a += program::NAME_BYTES;
    }
}

fn atom_names(text: &[u8]) -> [u8; 96]
    requires { opening_refusal text.now ≡ 0 }
    ensures { result ≡ padded 96 (placed (names text.now)) }
{
    let e = namesline::names_end(text);
    let mut names = [0u8; 96];
    put_names(&mut names, &text[..e]);
    names
}

// The table of a text with `n` names, dated or not, whose clause lines say `lines` and hold the form.
pub fn table_of(text: &[u8], n: usize, dated: bool, lines: ClauseLines) -> Program
    requires { (opening_refusal text.now ≡ 0) × (clause_broken text.now ≡ false) × (n ≡ length (names text.now)) × (dated ≡ is_dated text.now) × (lines ≡ clauses_of text.now) }
    ensures { result ≡ program_of text.now }
{
    let names = atom_names(text);
    let ClauseLines {
        count,
        heads,
        bodies,
        nafs,
        firsts,
        lasts,
        ..
    } = lines;
    Program {
        atom_count: n,
        atom_names: names,
        clause_count: count,
        heads,
        bodies,
        nafs,
        dated,
        firsts,
        lasts,
        held: table_fields::nothing_held(),
    }
}

// The table of a refusal, with nothing held.
#[tactic(auto, unfolding(text::specs::Tables::zero_table))]
fn zero_table() -> Program
    ensures { result ≡ zero_table }
{
    Program {
        atom_count: 0,
        atom_names: [0; 96],
        clause_count: 0,
        heads: [0; 64],
        bodies: [0; 64],
        nafs: [0; 64],
        dated: false,
        firsts: [0; 64],
        lasts: [0; 64],
        held: table_fields::nothing_held(),
    }
}

// A refusal and the all-zero table.
pub fn refused<R: Copy>(refusal: R) -> ReadWith<R>
    ensures { result ≡ refused_with refusal }
{
    ReadWith {
        verdict: Err(refusal),
        program: zero_table(),
    }
}

#[cfg(test)]
mod tests;
