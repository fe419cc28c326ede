// The models of a positive program whose lowest members are the literals, listed.
#![tactic(auto)]

ghost use Rattle.std.specs.Prelude.{◌≡◌, ◌≤◌, length};
ghost use Rattle.sets.specs.Lists.{tabulate};
ghost use Rattle.operator.specs.Operator.{rule_at};
ghost use Rattle.fix_answer.specs.Answer.{listed, refused, Answered, room_of};

use fix_answer::{FixpointAnswer, FixpointAnswerWith};
use program::{Outcome, Refusal};

// The answer where `count` words were to be listed in so many places.
fn answer(count: usize, places: usize) -> FixpointAnswer
    ensures { result ≡ listed count places }
{
    if count <= places {
        FixpointAnswer {
            outcome: Ok(Outcome::Complete),
            written: count,
        }
    } else {
        FixpointAnswer {
            outcome: Ok(Outcome::Full),
            written: places,
        }
    }
}

// The answer of a refusal.
#[tactic(auto, using(fix_answer::proofs::Answering::refused_is))]
pub fn refuse<R: Copy>(refusal: R) -> FixpointAnswerWith<R>
    ensures { result ≡ refused refusal }
{
    FixpointAnswerWith {
        outcome: Err(refusal),
        written: 0,
    }
}

// Lists the models of a positive program whose m lowest members are the literals, with two working slices of one length.
fn list_even<'a>(
    heads: &'a [u64],
    bodies: &'a [u64],
    count: usize,
    m: u32,
    models: &mut [u32],
    first: &mut [u64],
    second: &mut [u64],
) -> FixpointAnswer
    requires { (count ≤ length heads.now) × (count ≤ length bodies.now) × (m ≤ 32) × (length second.old ≡ length first.old) }
    ensures { Answered m (tabulate (rule_at heads.now bodies.now) count) (length first.old) models.old models.new result }
{
    let room = first.len();
    let n = fix_models::minimal_models(heads, bodies, count, first, second);
    if room < n {
        return refuse(Refusal::TooLittleRoom);
    }
    let k = parts::list_parts(first, n, m, second, models);
    answer(k, models.len())
}

// The same with any two working slices; their room is the shorter length.
pub fn list_models<'a>(
    heads: &'a [u64],
    bodies: &'a [u64],
    count: usize,
    m: u32,
    models: &mut [u32],
    first: &mut [u64],
    second: &mut [u64],
) -> FixpointAnswer
    requires { (count ≤ length heads.now) × (count ≤ length bodies.now) × (m ≤ 32) }
    ensures { Answered m (tabulate (rule_at heads.now bodies.now) count) (room_of first.old second.old) models.old models.new result }
{
    let room = first.len().min(second.len());
    list_even(
        heads,
        bodies,
        count,
        m,
        models,
        &mut first[..room],
        &mut second[..room],
    )
}

#[cfg(test)]
mod tests;
