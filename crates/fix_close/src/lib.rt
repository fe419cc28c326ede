// A set of members closed under the operator of a positive program, in one pass.
#![tactic(auto)]

ghost use Rattle.std.specs.Prelude.{◌≤◌, length};
ghost use Rattle.sets.specs.Lists.{tabulate};
ghost use Rattle.rising.specs.RisingSets.{add_all};
ghost use Rattle.rising.specs.Growing.{held, Runs, Gathered};
ghost use Rattle.operator.specs.Operator.{rule_at};
ghost use Rattle.closure.specs.Closure.{one_more, gives, Closes};

// Puts into the set `i` with each literal of `rest`, in turn.
fn spread(i: u64, rest: u64, set: &mut [u64], members: usize) -> usize
    requires { (members ≤ length set.old) × Runs members set.old }
    ensures { Gathered (length set.old) (add_all (one_more i rest) (held members set.old)) set.new result }
{
    let mut m = members;
    for t in literals::members(rest) {
        if set.len() < m {
            return m;
        }
        m = fix_add::add(set, m, literals::with(i, t));
    }
    m
}

// Puts into the set what the member `i` gives.
fn expand<'a>(
    heads: &'a [u64],
    bodies: &'a [u64],
    count: usize,
    i: u64,
    set: &mut [u64],
    members: usize,
) -> usize
    requires { (count ≤ length heads.now) × (count ≤ length bodies.now) × (members ≤ length set.old) × Runs members set.old }
    ensures { Gathered (length set.old) (add_all (gives i (tabulate (rule_at heads.now bodies.now) count)) (held members set.old)) set.new result }
{
    let offer = fix_quiet::offered_at(heads, bodies, count, i);
    if fix_quiet::is_quiet(heads, bodies, count, i, offer) {
        return spread(i, offer - (offer & i), set, members);
    }
    fix_step::give(heads, bodies, count, i, set, members)
}

// Puts into the set what its members give, and what these give, until nothing is new.
// The members are visited rising, and none gives what is below it: so each is visited once, also those that are put in on the way.
pub fn close<'a>(
    heads: &'a [u64],
    bodies: &'a [u64],
    count: usize,
    set: &mut [u64],
    members: usize,
) -> usize
    requires { (count ≤ length heads.now) × (count ≤ length bodies.now) × (members ≤ length set.old) × Runs members set.old }
    ensures { Closes (tabulate (rule_at heads.now bodies.now) count) (held members set.old) (length set.old) set.new result }
{
    let mut m = members;
    let mut from: u64 = 0;
    // A `loop`: members are put in before and behind the place as it goes.
    loop {
        let p = fix_insert::least_from(set, m, from);
        if p == m {
            return m;
        }
        let i = set[p];
        m = expand(heads, bodies, count, i, set, m);
        if set.len() < m {
            return m;
        }
        if i == u64::MAX {
            return m;
        }
        from = i + 1;
    }
}
