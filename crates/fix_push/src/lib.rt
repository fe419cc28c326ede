// One clause of (b), of (c) or of (d).
#![tactic(auto)]

ghost use Rattle.std.specs.Prelude.{◌≡◌, [], ◌∷◌, ◌<◌};
ghost use Rattle.sets.specs.Words.{mask};
ghost use Rattle.transform.specs.Transform.{clause_d};
ghost use Rattle.emission.specs.Emit.{Emits, Places};
ghost use Rattle.fix_push.specs.Parts.{one_b, one_c};

// The word of one member.
fn single(t: u32) -> u64
    requires { t < 64 }
    ensures { result ≡ mask (t ∷ []) }
{
    1 << t
}

// The word of two members.
fn couple(t: u32, u: u32) -> u64
    requires { (t < 64) × (u < 64) }
    ensures { result ≡ mask (t ∷ u ∷ []) }
{
    single(t) | single(u)
}

// (b) for one head literal and its stand-in.
pub fn push_b(t: u32, p: u32, hs: &mut [u64], bs: &mut [u64], at: usize) -> usize
    requires { (t < 64) × (p < 64) × Places (one_b (record { literal = t; at = p })) hs.old bs.old at }
    ensures { Emits (one_b (record { literal = t; at = p })) hs.old bs.old at hs.new bs.new result }
{
    emission::push(hs, bs, at, single(t), single(p))
}

// (c) for one stand-in and one not-literal.
pub fn push_c(a: u32, t: u32, hs: &mut [u64], bs: &mut [u64], at: usize) -> usize
    requires { (a < 64) × (t < 64) × Places (one_c a (record { literal = t; at = 0 })) hs.old bs.old at }
    ensures { Emits (one_c a (record { literal = t; at = 0 })) hs.old bs.old at hs.new bs.new result }
{
    emission::push(hs, bs, at, 0, couple(a, t))
}

// (d) for one head literal and one stand-in.
pub fn push_d(t: u32, p: u32, u: u32, q: u32, hs: &mut [u64], bs: &mut [u64], at: usize) -> usize
    requires { (t < 64) × (p < 64) × (q < 64) × Places (clause_d (record { literal = t; at = p }) (record { literal = u; at = q })) hs.old bs.old at }
    ensures { Emits (clause_d (record { literal = t; at = p }) (record { literal = u; at = q })) hs.old bs.old at hs.new bs.new result }
{
    if t == u {
        return at;
    }
    emission::push(hs, bs, at, single(p), couple(t, q))
}
