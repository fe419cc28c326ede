// The first p-stable leaf of the whole tree from a word on.
#![tactic(auto)]

ghost use Rattle.std.specs.Prelude.{◌*◌, ◌≤◌};
ghost use Rattle.sets.specs.Lists.{tabulate};
ghost use Rattle.tree.specs.NodeTest.{possible};
ghost use Rattle.columns.specs.Columns.{Columns};
ghost use Rattle.columns.specs.Play.{InPlay};
ghost use Rattle.leaf.specs.Packed.{packed_at};
ghost use Rattle.seek.specs.Seek.{Resumes, SoughtFrom};

// The first p-stable leaf of the whole tree over `n` atoms whose word is at least `from`: `NONE`, `SPENT` or a word.
// The nodes before it were visited before, and those on the way to the leaf before it are alive. So what is left are the trees of the
// second children beside that way: their words are the multiples of 1, 2, 4, .. next above that leaf, where the bit is set.
pub fn first_leaf(
    table: &[u32; leaf::WORDS],
    columns: &[u64; columns::WORDS],
    count: usize,
    root: u64,
    n: usize,
    from: u32,
    node_limit: u64,
    visited: &mut u64,
) -> u32
    requires count_bound { (count ≤ 64) × (n ≤ 12) }
    requires columns { Columns (packed_at table.now) count columns.now }
    requires in_play { InPlay (packed_at table.now) count (possible (2 * n) 0) 0 root }
    requires resumes { Resumes (tabulate (packed_at table.now) count) from }
    ensures { SoughtFrom (tabulate (packed_at table.now) count) n node_limit from visited.old result visited.new }
{
    let top = 2 * n;
    let last = search_play::with_undecided(top, 0);
    if from == 0 {
        return search_below::seek(
            table, columns, count, top, 0, last, root, root, node_limit, visited,
        );
    }
    if last < from {
        return seek::NONE;
    }
    let mut next = from;
    for k in 0..top {
        if (next >> k) & 1 == 0 {
            continue;
        }
        let bit = search_below::next_bit(k + 1);
        let found = search_below::seek_second(
            table,
            columns,
            count,
            root,
            top,
            k,
            next - bit,
            node_limit,
            visited,
        );
        if found != seek::NONE {
            return found;
        }
        next += bit;
    }
    seek::NONE
}
