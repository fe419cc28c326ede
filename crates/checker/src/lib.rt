// The check of one candidate against Definition 3.1.
#![tactic(auto)]

ghost use Rattle.std.specs.Prelude.{◌≡◌, true};
ghost use Rattle.program.specs.Clauses.{rows};
ghost use Rattle.program.specs.Days.{of_day, clauses};
ghost use Rattle.program.specs.Valid.{valid};
ghost use Rattle.stable.specs.Check.{verdict, Checks};

use program::{Program, Refusal};
use stable::Checked;

// The check of a word over the names of a valid table: a row's number is the table's, and the smaller subset is that of the day's clauses.
fn check_day(p: Program, day: u16, candidate: u32) -> Checked
    requires { valid p ≡ true }
    ensures { result ≡ verdict (of_day p day) (rows p) (clauses p day) candidate }
{
    let rows = table_days::day_rows(p, day);
    let count = p.clause_count;
    let v = check_violated::first_violated_row(
        &p.heads, &p.bodies, &p.nafs, count, rows, candidate,
    );
    if v < count {
        return Checked::Violated(v as u32);
    }
    let q = table_only::only(p, rows);
    let standing = q.clause_count;
    let j = check_smaller::least_smaller(&q.heads, &q.bodies, &q.nafs, standing, candidate);
    if j < candidate {
        return Checked::Smaller(j);
    }
    Checked::Stable
}

// The check of one candidate on a day.
pub fn check(p: Program, day: u16, candidate: u32) -> Result<Checked, Refusal>
    ensures { Checks p day candidate result }
{
    if !validity::is_valid(p) {
        return Err(Refusal::InvalidProgram);
    }
    let n = p.atom_count;
    if !table_fields::is_word(n, candidate) {
        return Err(Refusal::OutsideWord);
    }
    Ok(check_day(p, day, candidate))
}
