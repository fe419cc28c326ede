// The test of refusal 9: whether the reader could give a table, but for a clause that it may hold.
#![tactic(auto)]

ghost use Rattle.std.specs.Prelude.{◌≡◌};
ghost use Rattle.program.specs.Valid.{valid};

use program::Program;

// Whether the reader could give `p`, but for a clause that it may hold.
pub fn is_valid(p: Program) -> bool
    ensures { result ≡ valid p }
{
    let n = p.atom_count;
    let count = p.clause_count;
    let dated = p.dated;
    let names = p.atom_names;
    let held = p.held;
    valid_names::names_valid(dated, &names, n)
        & valid_clauses::clauses_valid(&p.heads, &p.bodies, &p.nafs, count, n)
        & valid_days::days_valid(dated, &p.firsts, &p.lasts, count)
        & valid_days::held_valid(dated, held, count, n)
}
