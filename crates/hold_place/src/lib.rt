// The separate place with a clause in it, and whether an equal clause stands in a row.
#![tactic(auto)]

ghost use Rattle.std.specs.Prelude.{◌≡◌, ◌≤◌, ◌<◌};
ghost use Rattle.program.specs.Clauses.{clause_of, row_at, rows, is_equal_row};
ghost use Rattle.program.specs.Held.{held_row, in_place, holding};
ghost use Rattle.held.specs.Holding.{day_held, held_as, stands};

use program::{HeldClause, Program};

// Whether the row `k` of the table has this clause, and these days.
fn is_equal(p: Program, k: usize, held: HeldClause) -> bool
    requires { k < 64 }
    ensures { result ≡ is_equal_row (held_row held) (row_at p k) }
{
    held.head == p.heads[k]
        && held.body == p.bodies[k]
        && held.naf == p.nafs[k]
        && held.first == p.firsts[k]
        && held.last == p.lasts[k]
}

// Whether some row has this clause, and these days.
pub fn equal_stands(p: Program, held: HeldClause) -> bool
    requires { p.clause_count ≤ 64 }
    ensures { result ≡ stands (held_row held) (rows p) }
{
    for k in 0..p.clause_count {
        if is_equal(p, k, held) {
            return true;
        }
    }
    false
}

// A day as it is held: on an undated table it is 0.
fn day_held(p: Program, day: u16) -> u16
    ensures { result ≡ day_held p day }
{
    if p.dated { day } else { 0 }
}

// The separate place with the clause in it, and with its days on a dated table.
pub fn held_as(p: Program, head: u32, body: u32, naf: u32, first: u16, last: u16) -> HeldClause
    ensures { result ≡ in_place (held_as p (clause_of head body naf) first last) }
{
    HeldClause {
        in_use: true,
        head,
        body,
        naf,
        first: day_held(p, first),
        last: day_held(p, last),
    }
}

// The table with this in its separate place.
pub fn with_held(p: Program, held: HeldClause) -> Program
    ensures { result ≡ holding p held }
{
    let mut q = p;
    q.held = held;
    q
}
