// Every set made of a word and one head literal of each clause whose body lies in a set.
#![tactic(auto)]

ghost use Rattle.std.specs.Prelude.{◌≡◌, ◌&&◌, ◌++◌, ◌≤◌, ltb, length};
ghost use Rattle.std.specs.Int.Count.{ones};
ghost use Rattle.sets.specs.Lists.{onward, tabulate};
ghost use Rattle.rising.specs.Growing.{held, Runs};
ghost use Rattle.rising.specs.RisingSets.{add_all};
ghost use Rattle.heads.specs.Heads.{head_at, picks};
ghost use Rattle.operator.specs.Operator.{rule_at, fired, Chosen};

// Whether a head is set aside where `n` are: it has two literals or more, and there is a place for it.
fn sets_aside(head: u64, n: usize) -> bool
    ensures { result ≡ (ltb 1 (ones head) && ltb n 64) }
{
    1 < head.count_ones() && n < 64
}

// Puts into the set every set made of `j`, a literal of each of the first `n` heads in `wide`, and one head literal, chosen every way, of each clause from `k` on whose body lies in `i`.
// A head of two literals or more is set aside in `wide`, for all of these to be combined at the end. The literals of the others are followed one after the other.
pub fn choose<'a>(
    heads: &'a [u64],
    bodies: &'a [u64],
    count: usize,
    i: u64,
    k: usize,
    j: u64,
    wide: &mut [u64; 64],
    n: usize,
    set: &mut [u64],
    members: usize,
) -> usize
    requires { (count ≤ length heads.now) × (count ≤ length bodies.now) × (k ≤ count) × (length wide.old ≡ 64) × (n ≤ 64) × (members ≤ length set.old) × Runs members set.old }
    ensures { Chosen (length set.old) (add_all (picks (tabulate (head_at wide.old) n ++ fired i (onward (rule_at heads.now bodies.now) count k)) j) (held members set.old)) set.new result n wide.old wide.new }
{
    if k == count {
        return fix_combine::combine(wide, n, j, set, members);
    }
    if !literals::subset(bodies[k], i) {
        return choose(heads, bodies, count, i, k + 1, j, wide, n, set, members);
    }
    let head = heads[k];
    if sets_aside(head, n) {
        wide[n] = head;
        return choose(heads, bodies, count, i, k + 1, j, wide, n + 1, set, members);
    }
    let mut m = members;
    for t in literals::members(head) {
        if set.len() < m {
            return m;
        }
        let v = literals::with(j, t);
        m = choose(heads, bodies, count, i, k + 1, v, wide, n, set, m);
    }
    m
}
