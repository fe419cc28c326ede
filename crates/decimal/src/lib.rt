// Decimal numbers: read up to a bound, measured, and put at the front of a slice.
#![tactic(auto)]

ghost use Rattle.std.specs.Prelude.{◌≡◌, ◌+◌, ◌≤◌, length};
ghost use Rattle.lists.specs.Bytes.{Wrote};
ghost use Rattle.decimal.specs.Decimal.{decimal, digit_of, goes_on, parsed_of};

// The digit that the byte `x` is, 10 for another byte.
#[tactic(auto, unfolding(crate::specs::Decimal::digit_of))]
fn digit_of(x: u8) -> u64
    ensures { result ≡ digit_of x }
{
    match x {
        b'0'..=b'9' => u64::from(x - b'0'),
        _ => 10,
    }
}

// Whether the digit `d` may stand behind the number `v`: no leading zero, and no more than the bound.
#[tactic(auto, using(crate::proofs::Reading::goes_tests))]
fn goes_on(v: u64, d: u64, bound: u64) -> bool
    ensures { result ≡ goes_on v d bound }
{
    d <= bound && 1 <= v && d < 10 && v <= (bound - d) / 10
}

// The number up to `bound` that `s` is the decimal text of.
pub fn read_number(s: &[u8], bound: u64) -> Option<u64>
    ensures { result ≡ parsed_of bound s.now }
{
    if s.is_empty() {
        return None;
    }
    let mut v = digit_of(s[0]);
    if 9 < v || bound < v {
        return None;
    }
    for i in 1..s.len() {
        let d = digit_of(s[i]);
        if !goes_on(v, d, bound) {
            return None;
        }
        v = 10 * v + d;
    }
    Some(v)
}

fn digit_byte(d: u64) -> u8
    requires { d ≤ 9 }
    ensures { result ≡ 48 + d }
{
    b'0' + d as u8
}

// The decimal text of `v` at the front of `out`, which has room for it; its length.
pub fn put_decimal(out: &mut [u8], v: u64) -> usize
    requires { length (decimal v) ≤ length out.old }
    ensures { Wrote (decimal v) out.old result out.new }
{
    if v < 10 {
        out[0] = digit_byte(v);
        return 1;
    }
    let n = put_decimal(out, v / 10);
    out[n] = digit_byte(v % 10);
    n + 1
}
