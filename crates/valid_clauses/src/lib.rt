// Refusal 9, the clauses of a table; refusal 17 asks the same of one clause.
#![tactic(auto)]

ghost use Rattle.std.specs.Prelude.{◌≡◌, ◌≤◌};
ghost use Rattle.sets.specs.Lists.{every, tabulate};
ghost use Rattle.program.specs.Clauses.{clause_of, clause_at};
ghost use Rattle.program.specs.Valid.{zero_from, is_clause, clauses_valid};

fn zero_words(s: &[u32], from: usize) -> bool
    ensures { result ≡ zero_from from s.now }
{
    s.iter().skip(from).all(|x| *x == 0)
}

// Whether the three parts are a clause over `n` atoms: not all of them are empty, and none has a bit outside.
#[tactic(auto, unfolding(program::specs::Valid::is_clause))]
pub fn is_clause(n: usize, head: u32, body: u32, naf: u32) -> bool
    ensures { result ≡ is_clause n (clause_of head body naf) }
{
    table_fields::is_word(n, head)
        && table_fields::is_word(n, body)
        && table_fields::is_word(n, naf)
        && (head != 0 || body != 0 || naf != 0)
}

fn clauses_hold<'a>(
    heads: &'a [u32; program::MOST_CLAUSES],
    bodies: &'a [u32; program::MOST_CLAUSES],
    nafs: &'a [u32; program::MOST_CLAUSES],
    count: usize,
    n: usize,
) -> bool
    requires { count ≤ 64 }
    ensures { result ≡ every (is_clause n) (tabulate (clause_at heads.now bodies.now nafs.now) count) }
{
    for k in 0..count {
        if !is_clause(n, heads[k], bodies[k], nafs[k]) {
            return false;
        }
    }
    true
}

// Whether there are at most 64 clauses, each of them one over the names, and zeros behind them.
#[tactic(auto, unfolding(program::specs::Valid::clauses_valid))]
pub fn clauses_valid<'a>(
    heads: &'a [u32; program::MOST_CLAUSES],
    bodies: &'a [u32; program::MOST_CLAUSES],
    nafs: &'a [u32; program::MOST_CLAUSES],
    count: usize,
    n: usize,
) -> bool
    ensures { result ≡ clauses_valid heads.now bodies.now nafs.now count n }
{
    count <= program::MOST_CLAUSES
        && clauses_hold(heads, bodies, nafs, count, n)
        && zero_words(heads, count)
        && zero_words(bodies, count)
        && zero_words(nafs, count)
}
