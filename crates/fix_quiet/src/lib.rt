// Whether a member need only give itself with one literal more.
#![tactic(auto)]

ghost use Rattle.std.specs.Prelude.{◌≡◌, ◌≤◌, length};
ghost use Rattle.sets.specs.Lists.{any_of, tabulate};
ghost use Rattle.operator.specs.Operator.{rule_at};
ghost use Rattle.closure.specs.Closure.{offers, stirs, quiet};

// The head literals of the clauses whose body lies in `i`.
pub fn offered_at<'a>(heads: &'a [u64], bodies: &'a [u64], count: usize, i: u64) -> u64
    requires { (count ≤ length heads.now) × (count ≤ length bodies.now) }
    ensures { result ≡ offers i (tabulate (rule_at heads.now bodies.now) count) }
{
    let mut all = 0;
    for k in 0..count {
        if literals::subset(bodies[k], i) {
            all |= heads[k];
        }
    }
    all
}

// Whether the clause fires at `full`, but does not fire at `i` or meets it nowhere.
fn stirs_at(head: u64, body: u64, i: u64, full: u64) -> bool
    ensures { result ≡ stirs i full (record { head = head; body = body }) }
{
    body & full == body && !(body & i == body && head & i != 0)
}

// Whether some clause stirs.
fn stirred<'a>(heads: &'a [u64], bodies: &'a [u64], count: usize, i: u64, full: u64) -> bool
    requires { (count ≤ length heads.now) × (count ≤ length bodies.now) }
    ensures { result ≡ any_of (stirs i full) (tabulate (rule_at heads.now bodies.now) count) }
{
    (0..count).any(|k| stirs_at(heads[k], bodies[k], i, full))
}

// Whether `i`, which is offered `offer`, is quiet.
pub fn is_quiet<'a>(heads: &'a [u64], bodies: &'a [u64], count: usize, i: u64, offer: u64) -> bool
    requires { (count ≤ length heads.now) × (count ≤ length bodies.now) × (offer ≡ offers i (tabulate (rule_at heads.now bodies.now) count)) }
    ensures { result ≡ quiet i (tabulate (rule_at heads.now bodies.now) count) }
{
    !stirred(heads, bodies, count, i, i | offer)
}
