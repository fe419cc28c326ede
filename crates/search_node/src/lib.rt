// The test of one node over clauses that lie in one array, by their columns.
#![tactic(auto)]

ghost use Rattle.std.specs.Prelude.{◌≡◌, not, ◌&&◌, ◌≤◌, eqb};
ghost use Rattle.sets.specs.Lists.{tabulate};
ghost use Rattle.sets.specs.Words.{bit};
ghost use Rattle.tree.specs.NodeTest.{node_test};
ghost use Rattle.columns.specs.Columns.{Columns};
ghost use Rattle.leaf.specs.Packed.{packed_at};
ghost use Rattle.node.specs.Node.{AtNode, Handed};

use tree::NodeStatus;

// Whether the literal k was decided out and no row that mentions it has left the play.
fn is_settled(k: usize, w: u32, mentioned: u64, asked: u64) -> bool
    requires { k ≤ 24 }
    ensures { result ≡ not (bit w k) && eqb asked mentioned }
{
    (w >> k) & 1 == 0 && asked == mentioned
}

// What the node is. Asked for a violation are the rows in play that mention the literal just decided, and support is looked for only
// where it could have been lost: the literal was decided in, or a row that mentions it has left the play.
pub fn test(
    table: &[u32; leaf::WORDS],
    columns: &[u64; columns::WORDS],
    count: usize,
    k: usize,
    w: u32,
    reach: u32,
    play: u64,
    mentioned: u64,
) -> NodeStatus
    requires at_node { AtNode count k w reach }
    requires columns { Columns (packed_at table.now) count columns.now }
    requires handed { Handed (packed_at table.now) count k w play mentioned }
    ensures { result ≡ node_test (tabulate (packed_at table.now) count) k w }
{
    let asked = mentioned & play;
    if search_rows::some_rules_out(table, asked, reach, w, reach) {
        return NodeStatus::Violated;
    }
    if is_settled(k, w, mentioned, asked) {
        return NodeStatus::Alive;
    }
    if search_support::some_unsupported(table, columns, count, k, w, play) {
        return NodeStatus::Unsupported;
    }
    NodeStatus::Alive
}
