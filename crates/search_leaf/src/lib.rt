// The test of one word that satisfies its reduct, over clauses that lie in one array.
#![tactic(auto)]

ghost use Rattle.std.specs.Prelude.{◌≡◌, true, ◌^◌, ◌≤◌, ◌<◌};
ghost use Rattle.sets.specs.Lists.{tabulate};
ghost use Rattle.sets.specs.Words.{Highest};
ghost use Rattle.semantics.specs.Interpretations.{reduct, is_model, is_stable};
ghost use Rattle.leaf.specs.Packed.{packed_at};
ghost use Rattle.columns.specs.Columns.{Columns};
ghost use Rattle.columns.specs.Play.{InPlay};
ghost use Rattle.leaf.specs.Leaf.{smaller_between, Handed};

// The highest literal of a word that has one.
fn highest(x: u32) -> u32
    requires { 0 < x }
    ensures { Highest x (2 ^ result) }
{
    31 - x.leading_zeros()
}

// Whether a proper subset of `by` satisfies the reduct by it, among those that hold `held` and of the rest only bits of `undecided`.
// The bits of `undecided` are decided from the highest, out before in; a branch is left where a clause is violated by all below it.
// Only a row that mentions the literal just decided can be one: `asked` has those, and at first all rows in play.
fn has_smaller(
    table: &[u32; leaf::WORDS],
    columns: &[u64; columns::WORDS],
    count: usize,
    rows: u64,
    asked: u64,
    by: u32,
    held: u32,
    undecided: u32,
) -> bool
    requires columns { Columns (packed_at table.now) count columns.now }
    requires handed { Handed (packed_at table.now) count by held undecided rows asked }
    ensures { result ≡ smaller_between (tabulate (packed_at table.now) count) by held undecided }
{
    if search_rows::some_rules_out(table, asked, by, held, held | undecided) {
        return false;
    }
    if undecided == 0 {
        return held != by;
    }
    let literal = highest(undecided);
    let top = 1 << literal;
    let rest = undecided - top;
    let mentioned = search_columns::mentions(columns, literal as usize) & rows;
    has_smaller(table, columns, count, rows, mentioned, by, held, rest)
        || has_smaller(table, columns, count, rows, mentioned, by, held | top, rest)
}

// Whether a word that satisfies its reduct is p-stable: no smaller subset satisfies the reduct. `rows` are those in play at it.
pub fn leaf_stable(
    table: &[u32; leaf::WORDS],
    columns: &[u64; columns::WORDS],
    count: usize,
    rows: u64,
    w: u32,
) -> bool
    requires count_bound { (count ≤ 64) × (w < 2 ^ 24) }
    requires columns { Columns (packed_at table.now) count columns.now }
    requires in_play { InPlay (packed_at table.now) count w w rows }
    requires w_value { is_model (reduct (tabulate (packed_at table.now) count) w) w ≡ true }
    ensures { result ≡ is_stable (tabulate (packed_at table.now) count) w }
{
    !has_smaller(table, columns, count, rows, rows, w, 0, w)
}
