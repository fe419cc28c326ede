// The loop of the search: one p-stable leaf after the other, put into a lent list.
#![tactic(auto)]

ghost use Rattle.std.specs.Prelude.{◌≡◌, ◌*◌, ◌≤◌};
ghost use Rattle.sets.specs.Lists.{tabulate};
ghost use Rattle.tree.specs.NodeTest.{possible, dead};
ghost use Rattle.tree.specs.Answer.{answer, Ends};
ghost use Rattle.columns.specs.Columns.{Columns};
ghost use Rattle.columns.specs.Play.{InPlay};
ghost use Rattle.leaf.specs.Packed.{packed_at};

use program::Outcome;
use tree::{SearchAnswer, SearchAnswerWith};

// What a search answers.
pub fn ended<R: Copy>(
    outcome: Result<Outcome, R>,
    written: usize,
    visited: u64,
) -> SearchAnswerWith<R>
    ensures { result ≡ answer outcome written visited }
{
    SearchAnswerWith {
        outcome,
        written,
        visited,
    }
}

// The search over `n` atoms: each turn seeks one model and writes it.
pub fn search_clauses(
    table: &[u32; leaf::WORDS],
    columns: &[u64; columns::WORDS],
    count: usize,
    root: u64,
    n: usize,
    node_limit: u64,
    models: &mut [u32],
) -> SearchAnswer
    requires count_bound { (count ≤ 64) × (n ≤ 12) }
    requires columns { Columns (packed_at table.now) count columns.now }
    requires in_play { InPlay (packed_at table.now) count (possible (2 * n) 0) 0 root }
    ensures { Ends (dead (tabulate (packed_at table.now) count)) (tabulate (packed_at table.now) count) n node_limit models.old result models.new }
{
    let mut written: usize = 0;
    let mut visited: u64 = 0;
    let mut from: u32 = 0;
    // A `loop`: each turn goes on behind the model that was found, and three ways lead out.
    loop {
        let w = search_from::first_leaf(
            table,
            columns,
            count,
            root,
            n,
            from,
            node_limit,
            &mut visited,
        );
        if w == seek::NONE {
            return ended(Ok(Outcome::Complete), written, visited);
        }
        if w == seek::SPENT {
            return ended(Ok(Outcome::Spent), written, visited);
        }
        if written >= models.len() {
            return ended(Ok(Outcome::Full), written, visited);
        }
        models[written] = w;
        written += 1;
        from = w + 1;
    }
}

#[cfg(test)]
mod tests;
