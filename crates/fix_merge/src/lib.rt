// The two runs of a set merged.
#![tactic(auto)]

ghost use Rattle.std.specs.Prelude.{◌≡◌, ◌+◌, ◌≤◌, length, take, drop};
ghost use Rattle.rising.specs.Growing.{Split, Settled, above_at};

// Copies `k` words from the place `m` on.
fn keep(set: &[u64], m: usize, k: usize, tail: &mut [u64; 256])
    requires { (m + k ≤ length set.now) × (k ≤ 256) × (length tail.old ≡ 256) }
    ensures { (length tail.new ≡ 256) × (take k tail.new ≡ take k (drop m set.now)) }
{
    tail[..k].copy_from_slice(&set[m..m + k]);
}

// Whether the last of the first `p` words is above `x`.
fn above(set: &[u64], p: usize, x: u64) -> bool
    requires { p ≤ length set.now }
    ensures { result ≡ above_at set.now p x }
{
    0 < p && x < set[p - 1]
}

// Merges the first `m` words and the `k` words behind them, from the greatest word down.
pub fn merge(set: &mut [u64], m: usize, k: usize)
    requires { (m + k ≤ length set.old) × (k ≤ 256) × Split m k set.old }
    ensures { Settled set.old (m + k) set.new }
{
    let mut tail = [0u64; 256];
    keep(set, m, k, &mut tail);
    let mut p = m;
    let mut q = k;
    // A `while`: each turn takes a word of the one run or of the other, and it ends once the second run is used up.
    while 0 < q {
        let x = tail[q - 1];
        if above(set, p, x) {
            set[p + q - 1] = set[p - 1];
            p -= 1;
        } else {
            set[p + q - 1] = x;
            q -= 1;
        }
    }
}
