// The fixpoint of a table all of whose clauses count: its transform, and the models of that.
#![tactic(auto)]

ghost use Rattle.std.specs.Prelude.{◌≡◌, true, ◌≤◌};
ghost use Rattle.program.specs.Clauses.{standing};
ghost use Rattle.program.specs.Valid.{valid};
ghost use Rattle.transform.specs.Transform.{members};
ghost use Rattle.vocabulary.specs.Vocabulary.{literals_of};
ghost use Rattle.fix_answer.specs.Answer.{Answered, kappa, room_of};

use fix_answer::FixpointAnswer;
use program::Program;

// The clauses that the transform of a table has at most: one for each of 64, and 1,056 for the stand-ins where the vocabulary has 64 members (fix_answer/proofs/Size).
const MOST_RULES: usize = 1120;

// The fixpoint of a valid table all of whose clauses count and whose vocabulary fits a word.
pub fn fix_table(
    p: Program,
    models: &mut [u32],
    first: &mut [u64],
    second: &mut [u64],
) -> FixpointAnswer
    requires { (valid p ≡ true) × (members (literals_of p) (standing p) ≤ 64) }
    ensures { Answered (literals_of p) (kappa (literals_of p) (standing p)) (room_of first.old second.old) models.old models.new result }
{
    let m = vocabulary::literal_count(p.atom_count);
    let mut hs = [0u64; MOST_RULES];
    let mut bs = [0u64; MOST_RULES];
    let n = rewriting::transform(
        m,
        &p.heads,
        &p.bodies,
        &p.nafs,
        p.clause_count,
        &mut hs,
        &mut bs,
    );
    fix_list::list_models(&hs, &bs, n, m, models, first, second)
}
