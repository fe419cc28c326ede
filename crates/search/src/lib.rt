// The search: the p-stable leaves of a program's tree, in visiting order, with a node limit and a lent list.
#![tactic(auto)]

ghost use Rattle.std.specs.Prelude.{◌≡◌, true};
ghost use Rattle.program.specs.Clauses.{standing};
ghost use Rattle.program.specs.Valid.{valid};
ghost use Rattle.tree.specs.NodeTest.{dead};
ghost use Rattle.tree.specs.Answer.{Searches, Ends};

use program::{Program, Refusal};
use tree::SearchAnswer;

// The search of a valid table all of whose clauses count, by value: they are packed and put in columns once, and lent from here on.
fn search_table(p: Program, node_limit: u64, models: &mut [u32]) -> SearchAnswer
    requires { valid p ≡ true }
    ensures { Ends (dead (standing p)) (standing p) p.atom_count node_limit models.old result models.new }
{
    let n = p.atom_count;
    let count = p.clause_count;
    let table = search_rows::pack(&p.heads, &p.bodies, &p.nafs);
    let columns = search_columns::columns(&p.heads, &p.bodies, &p.nafs, count);
    let root = search_play::root_rows(&table, count, n);
    search_models::search_clauses(&table, &columns, count, root, n, node_limit, models)
}

// The search of a table on a day.
pub fn search(p: Program, day: u16, node_limit: u64, models: &mut [u32]) -> SearchAnswer
    ensures { Searches p day node_limit models.old result models.new }
{
    if !validity::is_valid(p) {
        return search_models::ended(Err(Refusal::InvalidProgram), 0, 0);
    }
    let rows = table_days::day_rows(p, day);
    search_table(table_only::only(p, rows), node_limit, models)
}
