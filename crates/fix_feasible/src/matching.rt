// A matching of literals to heads, grown by augmenting paths: `partner` has for each literal the head that is matched to it, 64 where none is, and no head is matched to two literals.
// Nothing is promised of a matching but what keeps its routines safe: what it leads to is tested, so that a wrong one costs time and changes no answer.
ghost use Rattle.std.specs.Prelude.{◌≤◌, ◌<◌};

// A place among the 64, whatever `x` is.
fn place(x: usize) -> usize
    ensures { result < 64 }
{
    x & 63
}

// The place of the lowest literal of `s`; 0 where it has none.
fn lowest_place(s: u64) -> usize
    ensures { result < 64 }
{
    place(s.trailing_zeros() as usize)
}

// The literal of `s` that the head `k` is matched to, or 64.
pub fn matched(s: u64, k: usize, partner: &[usize; 64]) -> usize
    ensures { result ≤ 64 }
{
    for t in literals::members(s) {
        if partner[t as usize] == k {
            return t as usize;
        }
    }
    64
}

// Flips the matching along an augmenting path: the head `k` becomes the partner of the literal `t`, the one that was the partner of the literal that `t` was reached from, and so on up to `root`.
fn flip(partner: &mut [usize; 64], from: &[usize; 64], root: usize, t: usize, k: usize) {
    let mut at = place(t);
    let mut head = k;
    for _ in 0..64 {
        let old = partner[at];
        partner[at] = head;
        if at == root {
            return;
        }
        head = old;
        at = place(from[at]);
    }
}

// The reached set `x` with the literal `m`, which is reached from the literal `t`.
fn reach(from: &mut [usize; 64], x: u64, m: usize, t: usize) -> u64
    requires { m < 64 }
{
    if x & (1 << m) == 0 {
        from[m] = t;
    }
    x | (1 << m)
}

// Extends the reached set `x` by the literals of `s` whose partner has a literal of it; where a head that has one is matched to none, flips the matching along the path to it and gives 0.
fn extend(
    wide: &[u64; 64],
    n: usize,
    s: u64,
    root: usize,
    x: u64,
    partner: &mut [usize; 64],
    from: &mut [usize; 64],
) -> u64
    requires { n ≤ 64 }
{
    let mut y = x;
    for (k, head) in wide[..n].iter().enumerate() {
        if *head & y != 0 {
            let t = lowest_place(*head & y);
            let m = matched(*head & s, k, partner);
            if m == 64 {
                flip(partner, from, root, t, k);
                return 0;
            }
            y = reach(from, y, m, t);
        }
    }
    y
}

// Looks for an augmenting path from the literal `t` to one of the first `n` heads, where the literals of `s` are matched, and gives 0; where there is none, gives the reached set, whose literals are more than the heads that have one of them.
pub fn augment(wide: &[u64; 64], n: usize, s: u64, t: u64, partner: &mut [usize; 64]) -> u64
    requires { n ≤ 64 }
{
    let root = lowest_place(t);
    let mut from = [0usize; 64];
    let mut x = t;
    for _ in 0..64 {
        let y = extend(wide, n, s, root, x, partner, &mut from);
        if y == x {
            return x;
        }
        x = y;
    }
    x
}
