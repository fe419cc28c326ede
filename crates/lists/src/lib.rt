// Slices of bytes: where a byte stands, how often, whether two slices are the same, and bytes put at the front of a slice; the smaller of two lengths.
#![tactic(auto)]

ghost use Rattle.std.specs.Prelude.{◌≡◌, ◌≤◌, min, length};
ghost use Rattle.lists.specs.Bytes.{EndsAt, CountOf, Wrote, same, one_if};

// The place of the first `c` from `at` on, or the length where there is none; `at` where it lies behind the end.
pub fn end_of(s: &[u8], at: usize, c: u8) -> usize
    ensures { EndsAt s.now c at result }
{
    for i in at..s.len() {
        if s[i] == c {
            return i;
        }
    }
    at.max(s.len())
}

// How often `c` stands in `s`.
pub fn count_of(s: &[u8], c: u8) -> usize
    ensures { CountOf c s.now result }
{
    s.iter().filter(|x| **x == c).count()
}

// Whether two slices hold the same bytes.
#[tactic(auto, using(crate::proofs::Loops::is_same))]
pub fn same_bytes(a: &[u8], b: &[u8]) -> bool
    ensures { result ≡ same a.now b.now }
{
    a == b
}

// The bytes of `s` at the front of `out`, which has room for them; their number.
pub fn put_bytes(out: &mut [u8], s: &[u8]) -> usize
    requires { length s.now ≤ length out.old }
    ensures { Wrote s.now out.old result out.new }
{
    out[..s.len()].copy_from_slice(s);
    s.len()
}

// The smaller of the two: what is asked for, up to a limit.
pub fn least(a: usize, b: usize) -> usize
    ensures { result ≡ min a b }
{
    a.min(b)
}
