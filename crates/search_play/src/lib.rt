// The rows in play at a node, by the rows and on the way down from the root.
#![tactic(auto)]

ghost use Rattle.std.specs.Prelude.{◌≡◌, ◌&&◌, ◌≤◌, ◌*◌};
ghost use Rattle.sets.specs.Words.{inside, apart};
ghost use Rattle.columns.specs.Play.{InPlay};
ghost use Rattle.leaf.specs.Packed.{packed_at};
ghost use Rattle.tree.specs.NodeTest.{possible};
ghost use Rattle.node.specs.Node.{Placed};
ghost use Rattle.seek.specs.Seek.{OnPath, PlaysAt};

fn is_in_play(body: u32, naf: u32, w: u32, reach: u32) -> bool
    ensures { result ≡ inside body reach && apart naf w }
{
    body & reach == body && naf & w == 0
}

// The rows in play where `w` is decided in and `reach` not decided out.
pub fn rows_in_play(table: &[u32; leaf::WORDS], count: usize, w: u32, reach: u32) -> u64
    requires { count ≤ 64 }
    ensures { InPlay (packed_at table.now) count reach w result }
{
    let mut rows = 0;
    for i in 0..count {
        if is_in_play(table[leaf::BODIES + i], table[leaf::NAFS + i], w, reach) {
            rows |= 1 << i;
        }
    }
    rows
}

// The word with every undecided bit.
pub fn with_undecided(k: usize, w: u32) -> u32
    requires { Placed k w }
    ensures { result ≡ possible k w }
{
    w + ((1 << k) - 1)
}

// The rows in play at the root.
pub fn root_rows(table: &[u32; leaf::WORDS], count: usize, n: usize) -> u64
    requires { (count ≤ 64) × (n ≤ 12) }
    ensures { InPlay (packed_at table.now) count (possible (2 * n) 0) 0 result }
{
    rows_in_play(table, count, 0, with_undecided(2 * n, 0))
}

// The rows in play at the node (k, w), where `root` are those at the root, whose count of undecided bits is `top`.
pub fn play_at(columns: &[u64; columns::WORDS], root: u64, top: usize, k: usize, w: u32) -> u64
    requires { OnPath top k w }
    ensures { PlaysAt columns.now root top k w result }
{
    let mut play = root;
    for literal in (k..top).rev() {
        let lost = if (w >> literal) & 1 == 0 {
            columns[columns::BODIES + literal]
        } else {
            columns[columns::NAFS + literal]
        };
        play -= play & lost;
    }
    play
}
