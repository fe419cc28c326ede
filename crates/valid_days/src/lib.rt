// Refusal 9, the days of a table and its separate place.
#![tactic(auto)]

ghost use Rattle.std.specs.Prelude.{◌≡◌};
ghost use Rattle.program.specs.Valid.{days_fit, days_valid, held_valid};

use program::HeldClause;

// ---- the days of a table
// Whether the days are in order, and both 0 where there are none.
#[tactic(auto, unfolding(program::specs::Valid::days_fit))]
fn days_fit(has: bool, first: u16, last: u16) -> bool
    ensures { result ≡ days_fit has first last }
{
    first <= last && (has || last == 0)
}

// Whether the days of every place fit.
pub fn days_valid<'a>(
    dated: bool,
    firsts: &'a [u16; program::MOST_CLAUSES],
    lasts: &'a [u16; program::MOST_CLAUSES],
    count: usize,
) -> bool
    ensures { result ≡ days_valid dated firsts.now lasts.now count }
{
    for k in 0..program::MOST_CLAUSES {
        if !days_fit(dated && k < count, firsts[k], lasts[k]) {
            return false;
        }
    }
    true
}

// ---- the separate place
// Whether it has a clause that may be held, or nothing and is zero.
#[tactic(auto, unfolding(program::specs::Valid::held_valid))]
pub fn held_valid(dated: bool, held: HeldClause, count: usize, n: usize) -> bool
    ensures { result ≡ held_valid dated held count n }
{
    if held.in_use {
        valid_clauses::is_clause(n, held.head, held.body, held.naf)
            && count < program::MOST_CLAUSES
            && days_fit(dated, held.first, held.last)
    } else {
        held.head == 0 && held.body == 0 && held.naf == 0 && days_fit(false, held.first, held.last)
    }
}
