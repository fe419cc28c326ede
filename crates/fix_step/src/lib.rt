// What a set gives, and the stage that follows a stage.
#![tactic(auto)]

ghost use Rattle.std.specs.Prelude.{◌≡◌, ◌≤◌, length, take};
ghost use Rattle.sets.specs.Lists.{tabulate};
ghost use Rattle.rising.specs.Growing.{Grown, held, Runs, Gathered};
ghost use Rattle.rising.specs.RisingSets.{add_all};
ghost use Rattle.operator.specs.Operator.{rule_at, choices, bars, barred, next};

// Whether the clause is a constraint whose body lies in `i`.
fn bars_at(head: u64, body: u64, i: u64) -> bool
    ensures { result ≡ bars i (record { head = head; body = body }) }
{
    head == 0 && body & i == body
}

// Whether `i` contains some constraint's body.
fn blocked<'a>(heads: &'a [u64], bodies: &'a [u64], count: usize, i: u64) -> bool
    requires { (count ≤ length heads.now) × (count ≤ length bodies.now) }
    ensures { result ≡ barred i (tabulate (rule_at heads.now bodies.now) count) }
{
    (0..count).any(|k| bars_at(heads[k], bodies[k], i))
}

// Puts into the set what the member `i` gives; gives the number of members, or one more than there are places.
pub fn give<'a>(
    heads: &'a [u64],
    bodies: &'a [u64],
    count: usize,
    i: u64,
    set: &mut [u64],
    members: usize,
) -> usize
    requires { (count ≤ length heads.now) × (count ≤ length bodies.now) × (members ≤ length set.old) × Runs members set.old }
    ensures { Gathered (length set.old) (add_all (choices i (tabulate (rule_at heads.now bodies.now) count) i) (held members set.old)) set.new result }
{
    if blocked(heads, bodies, count, i) {
        return members;
    }
    let mut wide = [0u64; 64];
    fix_choose::choose(heads, bodies, count, i, 0, i, &mut wide, 0, set, members)
}

// Forms in `after` the stage that follows the one in the first `members` places of `stage`; gives its number of members, or one more than there are places.
pub fn step<'a>(
    heads: &'a [u64],
    bodies: &'a [u64],
    count: usize,
    stage: &'a [u64],
    members: usize,
    after: &mut [u64],
) -> usize
    requires { (count ≤ length heads.now) × (count ≤ length bodies.now) × (members ≤ length stage.now) }
    ensures { Grown (length after.old) (next (tabulate (rule_at heads.now bodies.now) count) (take members stage.now)) after.new result }
{
    let mut n = 0;
    for i in &stage[..members] {
        if after.len() < n {
            return n;
        }
        n = give(heads, bodies, count, *i, after, n);
    }
    if after.len() < n {
        return n;
    }
    fix_add::settle(after, n);
    n
}
