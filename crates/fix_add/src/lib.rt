// A word put into a set that rises in two runs.
#![tactic(auto)]

ghost use Rattle.std.specs.Prelude.{◌+◌, ◌≤◌, length, take, drop};
ghost use Rattle.sets.specs.Lists.{Rising};
ghost use Rattle.rising.specs.Growing.{held, Runs, Gathered, Settled, Behind};
ghost use Rattle.rising.specs.RisingSets.{insert_into};

// Puts `x` into the rising `k` words from the place `m` on; gives their number, or one more than there are places from `m` on.
fn insert_behind(set: &mut [u64], m: usize, k: usize, x: u64) -> usize
    requires { (m + k ≤ length set.old) × Rising (take k (drop m set.old)) }
    ensures { Behind set.old m k x set.new result }
{
    fix_insert::insert(&mut set[m..], k, x)
}

// Puts `x` into the set in the first `members` places; gives the number of members, or one more than there are places where it would be one too many.
pub fn add(set: &mut [u64], members: usize, x: u64) -> usize
    requires { (members ≤ length set.old) × Runs members set.old }
    ensures { Gathered (length set.old) (insert_into x (held members set.old)) set.new result }
{
    let m = fix_insert::first_run(members);
    if fix_insert::holds(set, m, x) {
        return members;
    }
    let t = insert_behind(set, m, members - m, x);
    if 256 <= t && m + t <= set.len() {
        fix_merge::merge(set, m, t);
    }
    m + t
}

// Brings the members into rising order.
pub fn settle(set: &mut [u64], members: usize)
    requires { (members ≤ length set.old) × Runs members set.old }
    ensures { Settled set.old members set.new }
{
    let m = fix_insert::first_run(members);
    fix_merge::merge(set, m, members - m);
}
