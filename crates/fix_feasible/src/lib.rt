// Whether a set can be made of one literal of each of some heads, and the literal to try first.
#![tactic(auto)]

ghost use Rattle.std.specs.Prelude.{◌≡◌, true, [], ◌≤◌, ◌<◌, ltb, length};
ghost use Rattle.std.specs.Int.Count.{ones};
ghost use Rattle.sets.specs.Lists.{any_of, sift, tabulate};
ghost use Rattle.sets.specs.Words.{apart, meets};
ghost use Rattle.heads.specs.Heads.{head_at, picks, between, Literal};

mod matching;

// A literal of `s`, which has one: the one that the head `k` is matched to, if it is.
pub fn pick(s: u64, k: usize, partner: &[usize; 64]) -> u32
    requires { 0 < s }
    ensures { Literal s result }
{
    let t = matching::matched(s, k, partner);
    if t < 64 && s & (1 << t) != 0 {
        t as u32
    } else {
        literals::lowest(s)
    }
}

// Whether some of the first `n` heads misses `v`.
fn missed(wide: &[u64; 64], n: usize, v: u64) -> bool
    requires { n ≤ 64 }
    ensures { result ≡ any_of (apart v) (tabulate (head_at wide.now) n) }
{
    wide[..n].iter().any(|head| v & *head == 0)
}

// How many of the first `n` heads meet `x`.
fn meeting(wide: &[u64; 64], n: usize, x: u64) -> u32
    requires { n ≤ 64 }
    ensures { result ≡ length (sift (meets x) (tabulate (head_at wide.now) n)) }
{
    wide[..n].iter().filter(|head| x & **head != 0).count() as u32
}

// Whether `x` has more literals than the first `n` heads can put in.
fn too_many(wide: &[u64; 64], n: usize, x: u64) -> bool
    requires { n ≤ 64 }
    ensures { result ≡ ltb (length (sift (meets x) (tabulate (head_at wide.now) n))) (ones x) }
{
    meeting(wide, n, x) < x.count_ones()
}

// Whether it is seen to be infeasible that a set made of `j` and a literal of each head holds `w` and, beyond it, only literals of `free`. `t` is the literal that came into `w` last, 0 where one was left out last.
pub fn infeasible(
    wide: &[u64; 64],
    n: usize,
    j: u64,
    free: u64,
    w: u64,
    t: u64,
    partner: &mut [usize; 64],
) -> bool
    requires { n ≤ 64 }
    ensures { result ≡ true → sift (between free w) (picks (tabulate (head_at wide.now) n) j) ≡ [] }
{
    if t == 0 {
        return missed(wide, n, w | free);
    }
    let x = matching::augment(
        wide,
        n,
        fix_offers::less(fix_offers::less(w, j), t),
        t,
        partner,
    );
    if x == 0 {
        return false;
    }
    too_many(wide, n, fix_offers::less(x & w, j))
}
