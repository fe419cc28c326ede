// The table of some of its rows.
#![tactic(auto)]

ghost use Rattle.std.specs.Prelude.{◌≡◌, ◌<◌};
ghost use Rattle.program.specs.Only.{is_chosen, only_of};

use program::Program;

fn is_chosen(rows: u64, count: usize, k: usize) -> bool
    requires { k < 64 }
    ensures { result ≡ is_chosen rows count k }
{
    k < count && (rows >> k) & 1 == 1
}

// The table of just the rows whose bit is set, in their order, with nothing held.
pub fn only(p: Program, rows: u64) -> Program
    ensures { result ≡ only_of p rows }
{
    let mut heads = [0u32; program::MOST_CLAUSES];
    let mut bodies = [0u32; program::MOST_CLAUSES];
    let mut nafs = [0u32; program::MOST_CLAUSES];
    let mut firsts = [0u16; program::MOST_CLAUSES];
    let mut lasts = [0u16; program::MOST_CLAUSES];
    let mut at: usize = 0;
    for k in 0..program::MOST_CLAUSES {
        if is_chosen(rows, p.clause_count, k) {
            heads[at] = p.heads[k];
            bodies[at] = p.bodies[k];
            nafs[at] = p.nafs[k];
            firsts[at] = p.firsts[k];
            lasts[at] = p.lasts[k];
            at += 1;
        }
    }
    Program {
        clause_count: at,
        heads,
        bodies,
        nafs,
        firsts,
        lasts,
        held: table_fields::nothing_held(),
        ..p
    }
}
