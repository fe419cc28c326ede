// The first clause, or row of a set, that a word violates.
#![tactic(auto)]

ghost use Rattle.std.specs.Prelude.{◌≡◌, ◌&&◌, ◌≤◌, ◌<◌};
ghost use Rattle.sets.specs.Lists.{tabulate};
ghost use Rattle.sets.specs.Words.{bit};
ghost use Rattle.sets.specs.Least.{least};
ghost use Rattle.program.specs.Clauses.{clause_of, clause_at, rows};
ghost use Rattle.semantics.specs.Interpretations.{violates, violated_at};
ghost use Rattle.stable.specs.Check.{violated_in};

// Whether the reduct by `by` keeps the clause and `w` violates what it keeps.
#[tactic(auto, unfolding(semantics::specs::Interpretations::violates))]
pub fn violates_clause(head: u32, body: u32, naf: u32, by: u32, w: u32) -> bool
    ensures { result ≡ violates by w (clause_of head body naf) }
{
    // `&`: one test, since three are three branches.
    (body & w == body) & (naf & by == 0) & (head & w == 0)
}

// The least number of a clause that the reduct by `by` keeps and `w` violates; `count` where there is none.
pub fn first_violated<'a>(
    heads: &'a [u32; program::MOST_CLAUSES],
    bodies: &'a [u32; program::MOST_CLAUSES],
    nafs: &'a [u32; program::MOST_CLAUSES],
    count: usize,
    by: u32,
    w: u32,
) -> usize
    requires { count ≤ 64 }
    ensures { result ≡ least (violated_at (tabulate (clause_at heads.now bodies.now nafs.now) count) by w) count }
{
    for k in 0..count {
        if violates_clause(heads[k], bodies[k], nafs[k], by, w) {
            return k;
        }
    }
    count
}

// Whether row `k` is in the set `rows` and `w` violates its clause.
fn violates_row(rows: u64, k: usize, head: u32, body: u32, naf: u32, w: u32) -> bool
    requires { k < 64 }
    ensures { result ≡ bit rows k && violates w w (clause_of head body naf) }
{
    (rows >> k) & 1 == 1 && violates_clause(head, body, naf, w, w)
}

// The least number of a row of the set `rows` whose clause `w` violates; `count` where there is none.
pub fn first_violated_row<'a>(
    heads: &'a [u32; program::MOST_CLAUSES],
    bodies: &'a [u32; program::MOST_CLAUSES],
    nafs: &'a [u32; program::MOST_CLAUSES],
    count: usize,
    rows: u64,
    w: u32,
) -> usize
    requires { count ≤ 64 }
    ensures { result ≡ least (violated_in (bit rows) (clause_at heads.now bodies.now nafs.now) w) count }
{
    for row in 0..count {
        if violates_row(rows, row, heads[row], bodies[row], nafs[row], w) {
            return row;
        }
    }
    count
}
