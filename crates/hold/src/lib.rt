// Document 02, U5: one call holds a clause in the separate place of the table, where it does not count.
#![tactic(auto)]

ghost use Rattle.std.specs.Prelude.{◌≡◌};
ghost use Rattle.program.specs.Clauses.{clause_of};
ghost use Rattle.held.specs.Holding.{hold_refusal, hold_of};
ghost use Rattle.program.specs.Refusals.{refused_by};

use held::{HoldAnswer, HoldStatus};
use program::{Program, Refusal, Verdict};

// The lowest refusal, if one applies.
fn hold_refusal(p: Program, head: u32, body: u32, naf: u32, first: u16, last: u16) -> Verdict
    ensures { refused_by result ≡ hold_refusal p (clause_of head body naf) first last }
{
    if !validity::is_valid(p) {
        return Err(Refusal::InvalidProgram);
    }
    let n = p.atom_count;
    let place = p.held;
    if place.in_use {
        return Err(Refusal::AlreadyHeld);
    }
    if !valid_clauses::is_clause(n, head, body, naf) {
        return Err(Refusal::NoClause);
    }
    if p.clause_count == program::MOST_CLAUSES {
        return Err(Refusal::NoPlaceLeft);
    }
    if p.dated & (last < first) {
        return Err(Refusal::DaysReversed);
    }
    Ok(())
}

// Holds the clause, and says whether an equal one stands already; a refused call gives the table back as it came.
pub fn hold(p: Program, head: u32, body: u32, naf: u32, first: u16, last: u16) -> HoldAnswer
    ensures { result ≡ hold_of p (clause_of head body naf) first last }
{
    let held = hold_place::held_as(p, head, body, naf, first, last);
    let q = hold_place::with_held(p, held);
    match hold_refusal(p, head, body, naf, first, last) {
        Err(refusal) => HoldAnswer {
            status: Err(refusal),
            program: p,
        },
        Ok(()) => {
            if hold_place::equal_stands(p, held) {
                return HoldAnswer {
                    status: Ok(HoldStatus::Equal),
                    program: q,
                };
            }
            HoldAnswer {
                status: Ok(HoldStatus::New),
                program: q,
            }
        }
    }
}
