// A word put into a set if it is made of another and one literal of each of some heads.
#![tactic(auto)]

ghost use Rattle.std.specs.Prelude.{◌≡◌, ◌≤◌, eqb, length};
ghost use Rattle.sets.specs.Lists.{any_of, sift, onward, tabulate};
ghost use Rattle.rising.specs.Growing.{held, Runs, Gathered};
ghost use Rattle.rising.specs.RisingSets.{add_all};
ghost use Rattle.heads.specs.Heads.{head_at, picks};

// Whether `w` is made of `j` and one literal, chosen some way, of each head from `k` on.
fn made<'a>(
    wide: &'a [u64; 64],
    n: usize,
    w: u64,
    k: usize,
    j: u64,
    partner: &'a [usize; 64],
) -> bool
    requires { (n ≤ 64) × (k ≤ n) }
    ensures { result ≡ any_of (eqb w) (picks (onward (head_at wide.now) n k) j) }
{
    if k == n {
        return w == j;
    }
    let mut rest = wide[k] & w;
    // A `while`: the literal that the head is matched to is tried before the lowest.
    while rest != 0 {
        let t = fix_feasible::pick(rest, k, partner);
        if made(wide, n, w, k + 1, literals::with(j, t), partner) {
            return true;
        }
        rest = fix_offers::less(rest, literals::with(0, t));
    }
    false
}

// Puts `w` into the set if it is made of `j` and a literal of each head.
pub fn insert_made<'a>(
    wide: &'a [u64; 64],
    n: usize,
    j: u64,
    w: u64,
    partner: &'a [usize; 64],
    set: &mut [u64],
    members: usize,
) -> usize
    requires { (n ≤ 64) × (members ≤ length set.old) × Runs members set.old }
    ensures { Gathered (length set.old) (add_all (sift (eqb w) (picks (tabulate (head_at wide.now) n) j)) (held members set.old)) set.new result }
{
    if made(wide, n, w, 0, j, partner) {
        fix_add::add(set, members, w)
    } else {
        members
    }
}
