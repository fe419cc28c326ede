// The literals that some heads offer.
#![tactic(auto)]

ghost use Rattle.std.specs.Prelude.{◌≡◌, ◌≤◌};
ghost use Rattle.sets.specs.Lists.{tabulate};
ghost use Rattle.heads.specs.Heads.{head_at, offered_by, without};

// `a` less what `b` has of it.
pub fn less(a: u64, b: u64) -> u64
    ensures { result ≡ without a b }
{
    a - (a & b)
}

// The literals of the first `n` heads.
pub fn offered(wide: &[u64; 64], n: usize) -> u64
    requires { n ≤ 64 }
    ensures { result ≡ offered_by (tabulate (head_at wide.now) n) }
{
    let mut all = 0;
    for head in &wide[..n] {
        all |= *head;
    }
    all
}
