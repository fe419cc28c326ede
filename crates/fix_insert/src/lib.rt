// A word looked for in a set that rises in one run or in two, and put into one run.
#![tactic(auto)]

ghost use Rattle.std.specs.Prelude.{◌≡◌, ◌+◌, ◌≤◌, ◌<◌, length, take};
ghost use Rattle.sets.specs.Lists.{Rising};
ghost use Rattle.rising.specs.Growing.{first_run, Runs, From, Holds};
ghost use Rattle.rising.specs.RisingSets.{insert_into, rank};
ghost use Rattle.rising.specs.Slices.{opened, stands_at, Inserted};

// The place of `x` in the rising first `members` places: how many of them are below it.
fn place(set: &[u64], members: usize, x: u64) -> usize
    requires { (members ≤ length set.now) × Rising (take members set.now) }
    ensures { (result ≡ rank x (take members set.now)) × (result ≤ members) }
{
    set[..members].partition_point(|y| *y < x)
}

// Moves the members from the place `at` on up by one place.
fn open(set: &mut [u64], at: usize, members: usize)
    requires { (at ≤ members) × (members < length set.old) }
    ensures { set.new ≡ opened set.old at members }
{
    set.copy_within(at..members, at + 1);
}

// Whether `x` stands at `at`, among the first `members` places.
fn stands(set: &[u64], members: usize, at: usize, x: u64) -> bool
    requires { members ≤ length set.now }
    ensures { result ≡ stands_at set.now members at x }
{
    at < members && set[at] == x
}

// Puts `x` into the set in the first `members` places; gives the number of members, or one more than there are places where it would be one too many.
pub fn insert(set: &mut [u64], members: usize, x: u64) -> usize
    requires { (members ≤ length set.old) × Rising (take members set.old) }
    ensures { Inserted set.old set.new (insert_into x (take members set.old)) result }
{
    let at = place(set, members, x);
    if stands(set, members, at, x) {
        return members;
    }
    if members == set.len() {
        return members + 1;
    }
    open(set, at, members);
    set[at] = x;
    members + 1
}

// ---- a set in two runs
// How many of so many members stand in the first run.
pub fn first_run(members: usize) -> usize
    ensures { (result ≡ first_run members) × (result ≤ members) × (members ≤ result + 255) }
{
    members - members % 256
}

// Whether `x` stands in the rising first `m` places.
pub fn holds(set: &[u64], m: usize, x: u64) -> bool
    requires { (m ≤ length set.now) × Rising (take m set.now) }
    ensures { Holds (take m set.now) x result }
{
    let at = place(set, m, x);
    stands(set, m, at, x)
}

// The place of the least member that is not below `x`, or `members` where there is none.
pub fn least_from(set: &[u64], members: usize, x: u64) -> usize
    requires { (members ≤ length set.now) × Runs members set.now }
    ensures { From set.now members x result }
{
    let m = first_run(members);
    let a = place(set, m, x);
    let b = m + place(&set[m..], members - m, x);
    if a == m {
        return b;
    }
    if b == members || set[a] < set[b] {
        a
    } else {
        b
    }
}
