// The run of the stages of a positive program, in two lent slices.
#![tactic(auto)]

ghost use Rattle.std.specs.Prelude.{◌≡◌, true, ◌≤◌, length, take};
ghost use Rattle.sets.specs.Lists.{every, tabulate};
ghost use Rattle.lists.specs.Bytes.{same};
ghost use Rattle.rising.specs.Slices.{Prefix};
ghost use Rattle.operator.specs.Operator.{rule_at};
ghost use Rattle.minimal.specs.Minimal.{satisfies};
ghost use Rattle.stages.specs.Run.{Iterating, Iterated};

// Whether two slices hold the same words.
fn same_words(a: &[u64], b: &[u64]) -> bool
    ensures { result ≡ same a.now b.now }
{
    a == b
}

// Copies the words into the first places of `to`.
fn copy(from: &[u64], to: &mut [u64])
    requires { length from.now ≤ length to.old }
    ensures { Prefix from.now to.new (length from.now) }
{
    to[..from.len()].copy_from_slice(from);
}

// Forms the stage that ends the run from stage `k`, all of whose members satisfy every clause.
// Every later stage holds the one before, so the last is the least set that holds stage `k` and is closed under the operator; its members are found without the stages between.
fn finish<'a>(
    heads: &'a [u64],
    bodies: &'a [u64],
    count: usize,
    first: &mut [u64],
    members: usize,
    second: &mut [u64],
    k: usize,
) -> usize
    requires count_in_bounds { (count ≤ length heads.now) × (count ≤ length bodies.now) }
    requires iterating { Iterating (tabulate (rule_at heads.now bodies.now) count) first.old members second.old k }
    requires first_value { every (satisfies (tabulate (rule_at heads.now bodies.now) count)) (take members first.old) ≡ true }
    ensures { Iterated (tabulate (rule_at heads.now bodies.now) count) (length first.old) result first.new second.new }
{
    let n = fix_close::close(heads, bodies, count, first, members);
    if first.len() < n {
        return n;
    }
    fix_add::settle(first, n);
    copy(&first[..n], second);
    n
}

// Goes on from stage `k`, in the first `members` places of `first`, to the stage that ends the run.
pub fn iterate<'a>(
    heads: &'a [u64],
    bodies: &'a [u64],
    count: usize,
    first: &mut [u64],
    members: usize,
    second: &mut [u64],
    k: usize,
) -> usize
    requires count_in_bounds { (count ≤ length heads.now) × (count ≤ length bodies.now) }
    requires iterating { Iterating (tabulate (rule_at heads.now bodies.now) count) first.old members second.old k }
    ensures { Iterated (tabulate (rule_at heads.now bodies.now) count) (length first.old) result first.new second.new }
{
    if fix_satisfied::is_settled(heads, bodies, count, &first[..members]) {
        return finish(heads, bodies, count, first, members, second, k);
    }
    let n = fix_step::step(heads, bodies, count, first, members, second);
    if second.len() < n {
        return n;
    }
    if same_words(&first[..members], &second[..n]) {
        return n;
    }
    iterate(heads, bodies, count, second, n, first, k + 1)
}
