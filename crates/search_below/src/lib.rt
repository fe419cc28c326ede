// The recursion over the tree: the first p-stable leaf below a node.
#![tactic(auto)]

ghost use Rattle.std.specs.Prelude.{◌≡◌, ◌+◌, ◌-◌, ◌^◌, ◌≤◌};
ghost use Rattle.sets.specs.Lists.{tabulate};
ghost use Rattle.tree.specs.NodeTest.{dead};
ghost use Rattle.columns.specs.Columns.{Columns};
ghost use Rattle.leaf.specs.Packed.{packed_at};
ghost use Rattle.node.specs.Node.{AtNode, Handed};
ghost use Rattle.seek.specs.Seek.{Ticked, SoughtBelow, SecondOf};

use tree::NodeStatus;

// Whether the node is dead, where `reach` is the word with every undecided bit.
fn node_dead(
    table: &[u32; leaf::WORDS],
    columns: &[u64; columns::WORDS],
    count: usize,
    k: usize,
    w: u32,
    reach: u32,
    play: u64,
    mentioned: u64,
) -> bool
    requires at_node { AtNode count k w reach }
    requires columns { Columns (packed_at table.now) count columns.now }
    requires handed { Handed (packed_at table.now) count k w play mentioned }
    ensures { result ≡ dead (tabulate (packed_at table.now) count) k w }
{
    match search_node::test(table, columns, count, k, w, reach, play, mentioned) {
        NodeStatus::Alive => false,
        NodeStatus::Violated => true,
        NodeStatus::Unsupported => true,
    }
}

// Bit k-1, which the second child of a node has and the first has not.
pub fn next_bit(k: usize) -> u32
    requires { (k ≤ 24) × (k ≡ 0 → ⊥) }
    ensures { result ≡ 2 ^ (k - 1) }
{
    1 << (k - 1)
}

// Counts a node; whether the node limit forbids it.
fn tick(node_limit: u64, visited: &mut u64) -> bool
    ensures { Ticked node_limit visited.old result visited.new }
{
    if *visited >= node_limit {
        return true;
    }
    *visited += 1;
    false
}

// The first p-stable leaf below the node. `play` are the rows in play, `mentioned` those of the parent that mention the literal just decided.
// The list is not handed down: only references and numbers are, since a slice or a struct is copied at each call.
// So is `reach`, the word with every undecided bit, since a shift at each node costs more.
pub fn seek(
    table: &[u32; leaf::WORDS],
    columns: &[u64; columns::WORDS],
    count: usize,
    k: usize,
    w: u32,
    reach: u32,
    play: u64,
    mentioned: u64,
    node_limit: u64,
    visited: &mut u64,
) -> u32
    requires at_node { AtNode count k w reach }
    requires columns { Columns (packed_at table.now) count columns.now }
    requires handed { Handed (packed_at table.now) count k w play mentioned }
    ensures { SoughtBelow (tabulate (packed_at table.now) count) k w node_limit visited.old result visited.new }
{
    if tick(node_limit, visited) {
        return seek::SPENT;
    }
    if node_dead(table, columns, count, k, w, reach, play, mentioned) {
        return seek::NONE;
    }
    if k == 0 {
        return if search_leaf::leaf_stable(table, columns, count, play, w) {
            w
        } else {
            seek::NONE
        };
    }
    let bit = next_bit(k);
    let literal = k - 1;
    let below = search_columns::mentions(columns, literal) & play;
    let first = seek(
        table,
        columns,
        count,
        literal,
        w,
        reach - bit,
        play - (play & columns[columns::BODIES + literal]),
        below,
        node_limit,
        visited,
    );
    if first != seek::NONE {
        return first;
    }
    seek(
        table,
        columns,
        count,
        literal,
        w + bit,
        reach,
        play - (play & columns[columns::NAFS + literal]),
        below,
        node_limit,
        visited,
    )
}

// The first p-stable leaf below the second child of the node (k + 1, w), which is alive.
pub fn seek_second(
    table: &[u32; leaf::WORDS],
    columns: &[u64; columns::WORDS],
    count: usize,
    root: u64,
    top: usize,
    k: usize,
    w: u32,
    node_limit: u64,
    visited: &mut u64,
) -> u32
    requires { SecondOf (packed_at table.now) count columns.now root top k w }
    ensures { SoughtBelow (tabulate (packed_at table.now) count) k (w + 2 ^ k) node_limit visited.old result visited.new }
{
    let bit = next_bit(k + 1);
    let second = w + bit;
    let play = search_play::play_at(columns, root, top, k + 1, w);
    seek(
        table,
        columns,
        count,
        k,
        second,
        second + (bit - 1),
        play - (play & columns[columns::NAFS + k]),
        search_columns::mentions(columns, k) & play,
        node_limit,
        visited,
    )
}
