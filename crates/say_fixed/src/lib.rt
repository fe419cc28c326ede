// What is said of a fixpoint: the line of a refusal, or the models and the line of the outcome.
#![tactic(auto)]

ghost use Rattle.std.specs.Prelude.{◌++◌};
ghost use Rattle.lists.specs.Bytes.{Wrote};
ghost use Rattle.wording.specs.Printed.{outcome_word, numbered};
ghost use Rattle.listings.specs.Listing.{listing};
ghost use Rattle.printing.specs.Ready.{ReadyToList};
ghost use Rattle.say_fixed.specs.Texts.{fixed_text};

use program::{Outcome, Program};

// The models, and the line of an outcome with the models written.
fn put_ended(
    p: Program,
    words: &[u32],
    outcome: Result<Outcome, u8>,
    m: usize,
    out: &mut [u8],
) -> usize
    requires { ReadyToList p words.now out.old }
    ensures { Wrote (listing p words.now ++ numbered (outcome_word outcome) m) out.old result out.new }
{
    let a = printing::put_models(p, words, out);
    let b = wording::put_outcome_line(&mut out[a..], outcome, m as u64);
    a + b
}

// The line of a refusal, or the models and the line of the outcome.
pub fn put_fixed(
    p: Program,
    words: &[u32],
    outcome: Result<Outcome, u8>,
    m: usize,
    out: &mut [u8],
) -> usize
    requires { ReadyToList p words.now out.old }
    ensures { Wrote (fixed_text p words.now outcome m) out.old result out.new }
{
    match outcome {
        Err(number) => printing::put_refused(number, out),
        Ok(_) => put_ended(p, words, outcome, m, out),
    }
}
