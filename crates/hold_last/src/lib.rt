// The held clause as the last clause of the table.
#![tactic(auto)]

ghost use Rattle.std.specs.Prelude.{◌≡◌, ◌<◌};
ghost use Rattle.held.specs.Clearing.{kept};

use program::Program;

// The table with the held clause as its last one.
pub fn with_last(p: Program) -> Program
    requires { p.clause_count < 64 }
    ensures { result ≡ kept p }
{
    let k = p.clause_count;
    let held = p.held;
    let nothing = table_fields::nothing_held();
    let mut q = p;
    q.heads[k] = held.head;
    q.bodies[k] = held.body;
    q.nafs[k] = held.naf;
    q.firsts[k] = held.first;
    q.lasts[k] = held.last;
    q.clause_count = k + 1;
    q.held = nothing;
    q
}
