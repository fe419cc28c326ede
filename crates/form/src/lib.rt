// The form of a book's bytes and of its names line: the lowest of refusals 1 to 6 that applies to a text.
#![tactic(auto)]

ghost use Rattle.std.specs.Prelude.{◌≡◌, false};
ghost use Rattle.text.specs.Refusals.{wrong_size, unended, is_foreign, has_foreign, too_many_lines, opening_refusal};
ghost use Rattle.program.specs.Refusals.{refused_by};

use program::{Refusal, Verdict};
use text::{NEWLINE, SPACE};

#[tactic(auto, unfolding(text::specs::Refusals::wrong_size))]
fn wrong_size(text: &[u8]) -> bool
    ensures { result ≡ wrong_size text.now }
{
    text.is_empty() || 4096 < text.len()
}

fn is_unended(text: &[u8]) -> bool
    requires { wrong_size text.now ≡ false }
    ensures { result ≡ unended text.now }
{
    text[text.len() - 1] != NEWLINE
}

#[tactic(auto, unfolding(text::specs::Refusals::is_foreign))]
fn is_foreign(x: u8) -> bool
    ensures { result ≡ is_foreign x }
{
    !(table_names::is_plain(x) || x == SPACE || x == NEWLINE)
}

fn has_foreign(text: &[u8]) -> bool
    ensures { result ≡ has_foreign text.now }
{
    text.iter().any(|x| is_foreign(*x))
}

fn too_many_lines(text: &[u8]) -> bool
    ensures { result ≡ too_many_lines text.now }
{
    65 < lists::count_of(text, NEWLINE)
}

// The lowest of refusals 1 to 6, if one applies.
pub fn opening_refusal(text: &[u8]) -> Verdict
    ensures { refused_by result ≡ opening_refusal text.now }
{
    if wrong_size(text) {
        return Err(Refusal::WrongSize);
    }
    if is_unended(text) {
        return Err(Refusal::Unended);
    }
    if has_foreign(text) {
        return Err(Refusal::ForeignByte);
    }
    if too_many_lines(text) {
        return Err(Refusal::TooManyLines);
    }
    namesline::names_refusal(text)
}
