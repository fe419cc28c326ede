// Whether a word, and every member of a stage, satisfies every clause.
#![tactic(auto)]

ghost use Rattle.std.specs.Prelude.{◌≡◌, ◌≤◌, length};
ghost use Rattle.sets.specs.Lists.{any_of, tabulate, every};
ghost use Rattle.operator.specs.Operator.{rule_at};
ghost use Rattle.minimal.specs.Minimal.{violates, satisfies};

// Whether `w` contains the clause's body and meets its head nowhere.
fn violates_at(head: u64, body: u64, w: u64) -> bool
    ensures { result ≡ violates w (record { head = head; body = body }) }
{
    body & w == body && head & w == 0
}

// Whether `w` violates some clause.
fn violated<'a>(heads: &'a [u64], bodies: &'a [u64], count: usize, w: u64) -> bool
    requires { (count ≤ length heads.now) × (count ≤ length bodies.now) }
    ensures { result ≡ any_of (violates w) (tabulate (rule_at heads.now bodies.now) count) }
{
    (0..count).any(|k| violates_at(heads[k], bodies[k], w))
}

// Whether `w` satisfies every clause.
pub fn satisfied<'a>(heads: &'a [u64], bodies: &'a [u64], count: usize, w: u64) -> bool
    requires { (count ≤ length heads.now) × (count ≤ length bodies.now) }
    ensures { result ≡ satisfies (tabulate (rule_at heads.now bodies.now) count) w }
{
    !violated(heads, bodies, count, w)
}

// Whether every member satisfies every clause.
pub fn is_settled<'a>(heads: &'a [u64], bodies: &'a [u64], count: usize, stage: &'a [u64]) -> bool
    requires { (count ≤ length heads.now) × (count ≤ length bodies.now) }
    ensures { result ≡ every (satisfies (tabulate (rule_at heads.now bodies.now) count)) stage.now }
{
    stage.iter().all(|w| satisfied(heads, bodies, count, *w))
}
