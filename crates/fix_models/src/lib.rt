// The minimal models of a positive program, by the run of its stages in two lent slices.
#![tactic(auto)]

ghost use Rattle.std.specs.Prelude.{◌≡◌, ◌≤◌, length};
ghost use Rattle.sets.specs.Lists.{tabulate};
ghost use Rattle.operator.specs.Operator.{rule_at};
ghost use Rattle.stages.specs.Run.{Iterating};
ghost use Rattle.stages.specs.Minimal.{Minimals};

// Leaves the minimal models at the start of `first`, from stage 0, which stands in its first place.
fn minimal_from<'a>(
    heads: &'a [u64],
    bodies: &'a [u64],
    count: usize,
    first: &mut [u64],
    second: &mut [u64],
) -> usize
    requires count_in_bounds { (count ≤ length heads.now) × (count ≤ length bodies.now) }
    requires iterating { Iterating (tabulate (rule_at heads.now bodies.now) count) first.old 1 second.old 0 }
    ensures { Minimals (tabulate (rule_at heads.now bodies.now) count) (length first.old) result first.new second.new }
{
    let room = first.len();
    let n = fix_run::iterate(heads, bodies, count, first, 1, second, 0);
    if room < n {
        return n;
    }
    fix_minimal::minimal_of(heads, bodies, count, first, n, second)
}

// Forms the stages of a positive program in two working slices of one length, and leaves its minimal models, rising, at the start of the first.
// Gives their number, or one more than the slices have places where some stage is too large for them.
pub fn minimal_models<'a>(
    heads: &'a [u64],
    bodies: &'a [u64],
    count: usize,
    first: &mut [u64],
    second: &mut [u64],
) -> usize
    requires { (count ≤ length heads.now) × (count ≤ length bodies.now) × (length second.old ≡ length first.old) }
    ensures { Minimals (tabulate (rule_at heads.now bodies.now) count) (length first.old) result first.new second.new }
{
    if first.is_empty() {
        return 1;
    }
    first[0] = 0;
    minimal_from(heads, bodies, count, first, second)
}
