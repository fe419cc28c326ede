// What `fixpoint` says of a table that was read, at the front of a slice with room for it.
#![tactic(auto)]

ghost use Rattle.std.specs.Prelude.{◌≡◌};
ghost use Rattle.lists.specs.Bytes.{Wrote};
ghost use Rattle.printing.specs.Ready.{Ready, ReadyToList};
ghost use Rattle.printing.specs.Texts.{lent_list};
ghost use Rattle.say_fixed.specs.Texts.{by_number, work_slice, fixpoint_text};

use printing::MOST_PLACES;
use program::{Outcome, Program, Refusal};

// The most words of a working slice.
pub const MOST_WORDS: usize = 65536;

// An outcome, with its number where it is a refusal.
#[tactic(auto, unfolding(say_fixed::specs::Texts::by_number))]
fn by_number(outcome: Result<Outcome, Refusal>) -> Result<Outcome, u8>
    ensures { result ≡ by_number outcome }
{
    match outcome {
        Ok(ended) => Ok(ended),
        Err(refusal) => Err(u8::from(refusal)),
    }
}

// A fixpoint of `p` on a day in the lent slices.
fn put_steps(
    p: Program,
    day: u16,
    models: &mut [u32],
    first: &mut [u64],
    second: &mut [u64],
    out: &mut [u8],
) -> usize
    requires { ReadyToList p models.old out.old }
    ensures { Wrote (fixpoint_text day models.old first.old second.old p) out.old result out.new }
{
    let a = fixpoint::fixpoint(p, day, models, first, second);
    let outcome = by_number(a.outcome);
    let m = a.written;
    say_fixed::put_fixed(p, &models[..m], outcome, m, out)
}

// A fixpoint on a day in a list of so many places and working slices of so many words, up to `MOST_PLACES` and `MOST_WORDS`.
pub fn put_fixpoint(p: Program, day: u16, places: usize, capacity: usize, out: &mut [u8]) -> usize
    requires { Ready p out.old }
    ensures { Wrote (fixpoint_text day (lent_list places) (work_slice capacity) (work_slice capacity) p) out.old result out.new }
{
    let n = lists::least(places, MOST_PLACES);
    let c = lists::least(capacity, MOST_WORDS);
    let mut models = [0u32; MOST_PLACES];
    let mut first = [0u64; MOST_WORDS];
    let mut second = [0u64; MOST_WORDS];
    put_steps(
        p,
        day,
        &mut models[..n],
        &mut first[..c],
        &mut second[..c],
        out,
    )
}
