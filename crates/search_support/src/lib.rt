// Whether some literal that is in can no longer be supported.
#![tactic(auto)]

ghost use Rattle.std.specs.Prelude.{◌≡◌, ◌≤◌};
ghost use Rattle.sets.specs.Lists.{any_of, tabulate};
ghost use Rattle.sets.specs.Words.{bit};
ghost use Rattle.literals.specs.Literals.{members};
ghost use Rattle.program.specs.Clauses.{clause_of};
ghost use Rattle.tree.specs.NodeTest.{possible, unsupported};
ghost use Rattle.columns.specs.Columns.{Columns};
ghost use Rattle.columns.specs.Play.{InPlay};
ghost use Rattle.leaf.specs.Packed.{packed_at};
ghost use Rattle.node.specs.Node.{Placed, supports_alone};

// Whether the clause has the literal as the only one of `w` in its head, and not in its body.
fn supports(head: u32, body: u32, w: u32, bit: u32) -> bool
    ensures { result ≡ supports_alone w bit (clause_of head body 0) }
{
    head & w == bit && body & bit == 0
}

// Whether some row of a set does.
fn some_supports(table: &[u32; leaf::WORDS], rows: u64, w: u32, bit: u32) -> bool
    ensures { result ≡ any_of (λ i. supports_alone w bit (packed_at table.now i)) (members rows) }
{
    for row in literals::members(rows) {
        let i = row as usize;
        if supports(table[i], table[leaf::BODIES + i], w, bit) {
            return true;
        }
    }
    false
}

// Whether some literal of `w` has no row in play that could still support it.
// A row with the literal in its head is asked for no other literal of `w`, so that none is asked twice.
pub fn some_unsupported(
    table: &[u32; leaf::WORDS],
    columns: &[u64; columns::WORDS],
    count: usize,
    k: usize,
    w: u32,
    play: u64,
) -> bool
    requires count_bound { (count ≤ 64) × Placed k w }
    requires columns { Columns (packed_at table.now) count columns.now }
    requires in_play { InPlay (packed_at table.now) count (possible k w) w play }
    ensures { result ≡ unsupported (tabulate (packed_at table.now) count) k w }
{
    let mut rows = play;
    for literal in literals::members(u64::from(w)) {
        let asked = columns[literal as usize] & rows;
        if !some_supports(table, asked, w, 1 << literal) {
            return true;
        }
        rows -= asked;
    }
    false
}
