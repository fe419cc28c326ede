// A line of a word and of numbers behind it at the front of a lent slice: of an outcome, of a refusal.
#![tactic(auto)]

ghost use Rattle.std.specs.Prelude.{◌≡◌, [], ◌∷◌, ◌++◌, ◌≤◌, length, take};
ghost use Rattle.lists.specs.Bytes.{Wrote};
ghost use Rattle.text.specs.Lines.{values_line};
ghost use Rattle.lines.specs.Laying.{Room};
ghost use Rattle.wording.specs.Printed.{outcome_word, numbered, refused_line, last_line};

use program::Outcome;
use text::SPACE;

// A word, and the space behind it.
fn put_word(out: &mut [u8], word: &[u8]) -> usize
    requires { length (word.now ++ 32 ∷ []) ≤ length out.old }
    ensures { Wrote (word.now ++ 32 ∷ []) out.old result out.new }
{
    let k = lists::put_bytes(out, word);
    out[k] = SPACE;
    k + 1
}

// A line of a word and of the first `n` values behind it.
fn put_worded_line(out: &mut [u8], word: &[u8], values: &[u64], n: usize) -> usize
    requires { Room n (length values.now) ((word.now ++ 32 ∷ []) ++ values_line (take n values.now)) out.old }
    ensures { Wrote ((word.now ++ 32 ∷ []) ++ values_line (take n values.now)) out.old result out.new }
{
    let a = put_word(out, word);
    let b = lines::put_values_line(&mut out[a..], values, n);
    a + b
}

// A line of a word and a number at the front of `out`, which has room for it; its length.
pub fn put_numbered_line(out: &mut [u8], word: &[u8], number: u64) -> usize
    requires { length (numbered word.now number) ≤ length out.old }
    ensures { Wrote (numbered word.now number) out.old result out.new }
{
    put_worded_line(out, word, &[number], 1)
}

// The line of a refusal at the front of `out`, which has room for it; its length.
pub fn put_refused_line(out: &mut [u8], number: u64) -> usize
    requires { length (refused_line number) ≤ length out.old }
    ensures { Wrote (refused_line number) out.old result out.new }
{
    put_numbered_line(out, b"refused", number)
}

// The word of an outcome.
fn outcome_word<R: Copy>(outcome: Result<Outcome, R>) -> &'static [u8]
    ensures { result.now ≡ outcome_word outcome }
{
    match outcome {
        Ok(Outcome::Complete) => b"complete",
        Ok(Outcome::Full) => b"full",
        Ok(Outcome::Spent) => b"spent",
        Err(_) => b"refused",
    }
}

// A line of an outcome and of the first `n` values behind it.
fn put_outcome<R: Copy>(
    out: &mut [u8],
    outcome: Result<Outcome, R>,
    values: &[u64],
    n: usize,
) -> usize
    requires { Room n (length values.now) ((outcome_word outcome ++ 32 ∷ []) ++ values_line (take n values.now)) out.old }
    ensures { Wrote ((outcome_word outcome ++ 32 ∷ []) ++ values_line (take n values.now)) out.old result out.new }
{
    put_worded_line(out, outcome_word(outcome), values, n)
}

// A line of an outcome and a number at the front of `out`, which has room for it; its length.
pub fn put_outcome_line<R: Copy>(out: &mut [u8], outcome: Result<Outcome, R>, m: u64) -> usize
    requires { length (numbered (outcome_word outcome) m) ≤ length out.old }
    ensures { Wrote (numbered (outcome_word outcome) m) out.old result out.new }
{
    put_outcome(out, outcome, &[m], 1)
}

// The last line of a search at the front of `out`, which has room for it; its length.
pub fn put_last_line<R: Copy>(out: &mut [u8], outcome: Result<Outcome, R>, m: u64, v: u64) -> usize
    requires { length (last_line outcome m v) ≤ length out.old }
    ensures { Wrote (last_line outcome m v) out.old result out.new }
{
    put_outcome(out, outcome, &[m, v], 2)
}
