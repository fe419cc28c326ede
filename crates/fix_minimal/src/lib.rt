// The minimal ones of the members of a stage that satisfy every clause, taken in two lent slices.
#![tactic(auto)]

ghost use Rattle.std.specs.Prelude.{◌≡◌, ◌≤◌, length, take};
ghost use Rattle.sets.specs.Lists.{sift, any_of, tabulate, Rising};
ghost use Rattle.rising.specs.Slices.{Prefix};
ghost use Rattle.operator.specs.Operator.{rule_at};
ghost use Rattle.minimal.specs.Minimal.{satisfies, proper_in, least_in, minimals};

// Copies into `kept` the members that satisfy every clause.
fn keep_models<'a>(
    heads: &'a [u64],
    bodies: &'a [u64],
    count: usize,
    stage: &'a [u64],
    kept: &mut [u64],
) -> usize
    requires { (count ≤ length heads.now) × (count ≤ length bodies.now) × (length stage.now ≤ length kept.old) }
    ensures { Prefix (sift (satisfies (tabulate (rule_at heads.now bodies.now) count)) stage.now) kept.new result }
{
    let mut n = 0;
    for w in stage {
        if fix_satisfied::satisfied(heads, bodies, count, *w) {
            kept[n] = *w;
            n += 1;
        }
    }
    n
}

// Whether `v` is a proper subset of `w`.
fn properly(v: u64, w: u64) -> bool
    ensures { result ≡ proper_in w v }
{
    v & w == v && v != w
}

// Whether some word of the list is a proper subset of `w`.
fn smaller(list: &[u64], w: u64) -> bool
    ensures { result ≡ any_of (proper_in w) list.now }
{
    list.iter().any(|v| properly(*v, w))
}

// Whether no word of the list is a proper subset of `w`.
fn minimal_among(list: &[u64], w: u64) -> bool
    ensures { result ≡ least_in list.now w }
{
    !smaller(list, w)
}

// Copies into `kept` the minimal words of the rising list: a smaller one stands before, and a minimal one of those is kept.
fn keep_minimal(list: &[u64], kept: &mut [u64]) -> usize
    requires { (length list.now ≤ length kept.old) × Rising list.now }
    ensures { Prefix (sift (least_in list.now) list.now) kept.new result }
{
    let mut n = 0;
    for w in list {
        if minimal_among(&kept[..n], *w) {
            kept[n] = *w;
            n += 1;
        }
    }
    n
}

// Leaves the minimal ones of the members that satisfy every clause at the start of `first`, in whose first places the members stand.
// The words behind them, and all words of `second`, may be any.
pub fn minimal_of<'a>(
    heads: &'a [u64],
    bodies: &'a [u64],
    count: usize,
    first: &mut [u64],
    members: usize,
    second: &mut [u64],
) -> usize
    requires { (count ≤ length heads.now) × (count ≤ length bodies.now) × (members ≤ length first.old) × (members ≤ length second.old) × Rising (take members first.old) }
    ensures { Prefix (minimals (sift (satisfies (tabulate (rule_at heads.now bodies.now) count)) (take members first.old))) first.new result }
{
    let k = keep_models(heads, bodies, count, &first[..members], second);
    keep_minimal(&second[..k], first)
}
