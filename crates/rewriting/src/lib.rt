// The epistemic transform of a program, put out as words into two slices: (a), then what `standins` puts behind it, clause by clause.
#![tactic(auto)]

ghost use Rattle.std.specs.Prelude.{◌≡◌, map, ◌+◌, ◌^◌, ◌≤◌, ◌<◌, length};
ghost use Rattle.sets.specs.Lists.{tabulate};
ghost use Rattle.sets.specs.Words.{mask};
ghost use Rattle.literals.specs.Literals.{literals};
ghost use Rattle.program.specs.Clauses.{clause_of, clause_at};
ghost use Rattle.transform.specs.Transform.{becomes, members, kappa_from};
ghost use Rattle.emission.specs.Emit.{Emits, Places};
ghost use Rattle.rewriting.specs.Rewriting.{stand_mask, head_a, rewritten_from, Rewrites, Takes, ClausesOver};

// The word of the stand-ins of a head, from `s` on: so many ones, `s` places up.
fn stand_mask(head: u32, s: u32) -> u64
    requires { s + length (literals head) ≤ 64 }
    ensures { result ≡ stand_mask s head }
{
    if head == 0 {
        return 0;
    }
    ((1 << head.count_ones()) - 1) << s
}

// K of each not-literal.
fn beliefs(m: u32, naf: u32) -> u64
    requires { (m ≤ 32) × (naf < 2 ^ m) }
    ensures { result ≡ mask (map (λ n. m + n) (literals naf)) }
{
    u64::from(naf) << m
}

// (a): its head.
fn head_a(m: u32, s: u32, head: u32, naf: u32) -> u64
    requires { (m ≤ 32) × (naf < 2 ^ m) × (s + length (literals head) ≤ 64) }
    ensures { result ≡ head_a m s head naf }
{
    stand_mask(head, s) | beliefs(m, naf)
}

// What a clause with a not-part becomes, its stand-ins from `s` on.
fn rewrite(
    m: u32,
    s: u32,
    head: u32,
    body: u32,
    naf: u32,
    hs: &mut [u64],
    bs: &mut [u64],
    at: usize,
) -> usize
    requires { Rewrites m s head body naf hs.old bs.old at }
    ensures { Emits (rewritten_from m s head body naf) hs.old bs.old at hs.new bs.new result }
{
    let n = emission::push(hs, bs, at, head_a(m, s, head, naf), u64::from(body));
    standins::emit_bcd(u64::from(head), s, u64::from(naf), hs, bs, n)
}

// What one clause becomes.
fn emit_clause(
    m: u32,
    s: u32,
    head: u32,
    body: u32,
    naf: u32,
    hs: &mut [u64],
    bs: &mut [u64],
    at: usize,
) -> usize
    requires { Takes m s (clause_of head body naf) hs.old bs.old at }
    ensures { Emits (becomes m s (clause_of head body naf)) hs.old bs.old at hs.new bs.new result }
{
    if naf == 0 {
        return emission::push(hs, bs, at, u64::from(head), u64::from(body));
    }
    rewrite(m, s, head, body, naf, hs, bs, at)
}

// Puts out the transformed program.
pub fn transform<'a>(
    m: u32,
    heads: &'a [u32],
    bodies: &'a [u32],
    nafs: &'a [u32],
    count: usize,
    hs: &mut [u64],
    bs: &mut [u64],
) -> usize
    requires clauses_over { ClausesOver m heads.now bodies.now nafs.now count }
    requires count_bound { (members m (tabulate (clause_at heads.now bodies.now nafs.now) count) ≤ 64) × Places (kappa_from m (m + m) (tabulate (clause_at heads.now bodies.now nafs.now) count)) hs.old bs.old 0 }
    ensures { Emits (kappa_from m (m + m) (tabulate (clause_at heads.now bodies.now nafs.now) count)) hs.old bs.old 0 hs.new bs.new result }
{
    let mut s = m + m;
    let mut n = 0;
    for k in 0..count {
        n = emit_clause(m, s, heads[k], bodies[k], nafs[k], hs, bs, n);
        s += vocabulary::stand_ins(heads[k], bodies[k], nafs[k]);
    }
    n
}
