// The fixpoint of the epistemic transform: stages formed on words, their canonical minimal models, the literal parts of these.
#![tactic(auto)]

ghost use Rattle.fix_answer.specs.Answer.{Fixes};

use fix_answer::FixpointAnswer;
use program::{Program, Refusal};

// The members that a word has room for.
const MOST_MEMBERS: u32 = 64;

// The p-stable models of the clauses of a day by the fixpoint of their epistemic transform, with a lent list and two lent working slices.
pub fn fixpoint(
    p: Program,
    day: u16,
    models: &mut [u32],
    first: &mut [u64],
    second: &mut [u64],
) -> FixpointAnswer
    ensures { Fixes p day models.old first.old second.old result models.new first.new second.new }
{
    if !validity::is_valid(p) {
        return fix_list::refuse(Refusal::InvalidProgram);
    }
    let rows = table_days::day_rows(p, day);
    let q = table_only::only(p, rows);
    if MOST_MEMBERS < vocabulary::member_count(q) {
        return fix_list::refuse(Refusal::TooManyMembers);
    }
    fix_table::fix_table(q, models, first, second)
}
