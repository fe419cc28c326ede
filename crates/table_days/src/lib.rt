// The rows of a table whose days hold a day.
#![tactic(auto)]

ghost use Rattle.std.specs.Prelude.{◌≡◌};
ghost use Rattle.program.specs.Days.{is_of_day, RowsOfDay};

use program::Program;

#[tactic(auto, unfolding(program::specs::Days::is_of_day))]
fn is_of_day(dated: bool, first: u16, last: u16, day: u16) -> bool
    ensures { result ≡ is_of_day dated first last day }
{
    !dated || (first <= day && day <= last)
}

// The places whose days hold the day, as a set: bit `k` for place `k`. A place without a clause has the days 0 and 0, so a caller looks at the count of clauses too.
pub fn day_rows(p: Program, day: u16) -> u64
    ensures { RowsOfDay p day result }
{
    let mut rows: u64 = 0;
    for k in 0..program::MOST_CLAUSES {
        if is_of_day(p.dated, p.firsts[k], p.lasts[k], day) {
            rows |= 1 << k;
        }
    }
    rows
}
