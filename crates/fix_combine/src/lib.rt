// Every set made of a word and one literal of each of some heads. The sets are enumerated, and not the ways to choose the literals, which may be far more.
#![tactic(auto)]

ghost use Rattle.std.specs.Prelude.{◌≤◌, ◌<◌, length};
ghost use Rattle.sets.specs.Lists.{sift, tabulate};
ghost use Rattle.sets.specs.Words.{Highest};
ghost use Rattle.rising.specs.Growing.{held, Runs, Gathered};
ghost use Rattle.rising.specs.RisingSets.{add_all};
ghost use Rattle.heads.specs.Heads.{head_at, picks, between};

// The highest literal of a word that has one, as a word.
fn highest(s: u64) -> u64
    requires { 0 < s }
    ensures { Highest s result }
{
    1 << (63 - s.leading_zeros())
}

// Puts into the set those made of `j` and a literal of each head that hold `w` and, beyond it, only literals of `free`.
// The literals of `free` are decided from the highest, out before in, so that they come rising.
fn scan(
    wide: &[u64; 64],
    n: usize,
    j: u64,
    free: u64,
    w: u64,
    t: u64,
    partner: &mut [usize; 64],
    set: &mut [u64],
    members: usize,
) -> usize
    requires { (n ≤ 64) × (members ≤ length set.old) × Runs members set.old }
    ensures { Gathered (length set.old) (add_all (sift (between free w) (picks (tabulate (head_at wide.now) n) j)) (held members set.old)) set.new result }
{
    if fix_feasible::infeasible(wide, n, j, free, w, t, partner) {
        return members;
    }
    if free == 0 {
        return fix_made::insert_made(wide, n, j, w, partner, set, members);
    }
    let top = highest(free);
    let rest = free - top;
    let m = scan(wide, n, j, rest, w, 0, partner, set, members);
    if set.len() < m {
        return m;
    }
    scan(wide, n, j, rest, w | top, top, partner, set, m)
}

// Puts into the set every set made of `j` and one literal, chosen every way, of each of the first `n` heads.
pub fn combine(wide: &[u64; 64], n: usize, j: u64, set: &mut [u64], members: usize) -> usize
    requires { (n ≤ 64) × (members ≤ length set.old) × Runs members set.old }
    ensures { Gathered (length set.old) (add_all (picks (tabulate (head_at wide.now) n) j) (held members set.old)) set.new result }
{
    let mut partner = [64usize; 64];
    let free = fix_offers::less(fix_offers::offered(wide, n), j);
    scan(wide, n, j, free, j, 0, &mut partner, set, members)
}
