// The least smaller word that satisfies the reduct.
#![tactic(auto)]

ghost use Rattle.std.specs.Prelude.{◌≡◌, ◌≤◌};
ghost use Rattle.sets.specs.Lists.{tabulate};
ghost use Rattle.sets.specs.Words.{next_subset};
ghost use Rattle.program.specs.Clauses.{clause_at};
ghost use Rattle.semantics.specs.Interpretations.{least_smaller};

// The subset of `word` that follows its subset `j` in the order of numbers; 0 after `word` itself.
fn next_subset(word: u32, j: u32) -> u32
    ensures { result ≡ next_subset 32 word j }
{
    j.wrapping_sub(word) & word
}

// The least proper subset of `candidate` that satisfies the reduct by it; `candidate` where there is none.
pub fn least_smaller<'a>(
    heads: &'a [u32; program::MOST_CLAUSES],
    bodies: &'a [u32; program::MOST_CLAUSES],
    nafs: &'a [u32; program::MOST_CLAUSES],
    count: usize,
    candidate: u32,
) -> u32
    requires { count ≤ 64 }
    ensures { result ≡ least_smaller (tabulate (clause_at heads.now bodies.now nafs.now) count) candidate }
{
    let mut j = 0;
    // A `while`: the next subset is not the next number.
    while j < candidate {
        if check_violated::first_violated(heads, bodies, nafs, count, candidate, j) == count {
            return j;
        }
        j = next_subset(candidate, j);
    }
    candidate
}
