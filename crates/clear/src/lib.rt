// Document 02, U5: the separate place is cleared: the held clause is kept as the last one, or let go.
#![tactic(auto)]

ghost use Rattle.std.specs.Prelude.{◌≡◌};
ghost use Rattle.held.specs.Clearing.{clearing, keep_of, release_of};

use held::{ClearAnswer, ClearStatus};
use program::{Program, Refusal};

fn gave(status: Result<ClearStatus, Refusal>, p: Program) -> ClearAnswer
    ensures { result ≡ clearing status p }
{
    ClearAnswer { status, program: p }
}

// Keeps the held clause as the last one; with nothing held the table is given back.
pub fn keep(p: Program) -> ClearAnswer
    ensures { result ≡ keep_of p }
{
    if !validity::is_valid(p) {
        return gave(Err(Refusal::InvalidProgram), p);
    }
    let held = p.held;
    if held.in_use {
        return gave(Ok(ClearStatus::Cleared), hold_last::with_last(p));
    }
    gave(Ok(ClearStatus::NothingHeld), p)
}

// Lets the held clause go; with nothing held the table is given back.
pub fn release(p: Program) -> ClearAnswer
    ensures { result ≡ release_of p }
{
    if !validity::is_valid(p) {
        return gave(Err(Refusal::InvalidProgram), p);
    }
    let held = p.held;
    if held.in_use {
        return gave(
            Ok(ClearStatus::Cleared),
            hold_place::with_held(p, table_fields::nothing_held()),
        );
    }
    gave(Ok(ClearStatus::NothingHeld), p)
}
