// (b), (c) and (d): the clauses that join the stand-ins of a clause with its literals and with each other.
#![tactic(auto)]

ghost use Rattle.std.specs.Prelude.{◌++◌, ◌+◌, ◌≤◌, ◌<◌, length};
ghost use Rattle.literals.specs.Literals.{literals};
ghost use Rattle.transform.specs.Transform.{clause_d};
ghost use Rattle.emission.specs.Emit.{Emits, Places};
ghost use Rattle.fix_push.specs.Parts.{for_each, one_b, one_c, each_c, each_d};

// (b) for each head literal.
fn emit_b(head: u64, s: u32, hs: &mut [u64], bs: &mut [u64], at: usize) -> usize
    requires { (s + length (literals head) ≤ 64) × Places (for_each one_b s head) hs.old bs.old at }
    ensures { Emits (for_each one_b s head) hs.old bs.old at hs.new bs.new result }
{
    let mut p = s;
    let mut n = at;
    for t in literals::members(head) {
        n = fix_push::push_b(t, p, hs, bs, n);
        p += 1;
    }
    n
}

// (c) for one stand-in and each not-literal.
fn emit_c_one(a: u32, naf: u64, hs: &mut [u64], bs: &mut [u64], at: usize) -> usize
    requires { (a < 64) × Places (for_each (one_c a) 0 naf) hs.old bs.old at }
    ensures { Emits (for_each (one_c a) 0 naf) hs.old bs.old at hs.new bs.new result }
{
    let mut n = at;
    for t in literals::members(naf) {
        n = fix_push::push_c(a, t, hs, bs, n);
    }
    n
}

// (c) for each stand-in.
fn emit_c(head: u64, s: u32, naf: u64, hs: &mut [u64], bs: &mut [u64], at: usize) -> usize
    requires { (s + length (literals head) ≤ 64) × Places (for_each (each_c naf) s head) hs.old bs.old at }
    ensures { Emits (for_each (each_c naf) s head) hs.old bs.old at hs.new bs.new result }
{
    let mut p = s;
    let mut n = at;
    for _ in literals::members(head) {
        n = emit_c_one(p, naf, hs, bs, n);
        p += 1;
    }
    n
}

// (d) for one head literal.
fn emit_d_one(t: u32, p: u32, head: u64, s: u32, hs: &mut [u64], bs: &mut [u64], at: usize) -> usize
    requires { (t < 64) × (p < 64) × (s + length (literals head) ≤ 64) × Places (for_each (clause_d (record { literal = t; at = p })) s head) hs.old bs.old at }
    ensures { Emits (for_each (clause_d (record { literal = t; at = p })) s head) hs.old bs.old at hs.new bs.new result }
{
    let mut q = s;
    let mut n = at;
    for u in literals::members(head) {
        n = fix_push::push_d(t, p, u, q, hs, bs, n);
        q += 1;
    }
    n
}

// (d) for each head literal.
fn emit_d(head: u64, s: u32, hs: &mut [u64], bs: &mut [u64], at: usize) -> usize
    requires { (s + length (literals head) ≤ 64) × Places (for_each (each_d head s) s head) hs.old bs.old at }
    ensures { Emits (for_each (each_d head s) s head) hs.old bs.old at hs.new bs.new result }
{
    let mut p = s;
    let mut n = at;
    for t in literals::members(head) {
        n = emit_d_one(t, p, head, s, hs, bs, n);
        p += 1;
    }
    n
}

// (b), (c) and (d).
pub fn emit_bcd(head: u64, s: u32, naf: u64, hs: &mut [u64], bs: &mut [u64], at: usize) -> usize
    requires { (s + length (literals head) ≤ 64) × Places (for_each one_b s head ++ (for_each (each_c naf) s head ++ for_each (each_d head s) s head)) hs.old bs.old at }
    ensures { Emits (for_each one_b s head ++ (for_each (each_c naf) s head ++ for_each (each_d head s) s head)) hs.old bs.old at hs.new bs.new result }
{
    let b = emit_b(head, s, hs, bs, at);
    let c = emit_c(head, s, naf, hs, bs, b);
    emit_d(head, s, hs, bs, c)
}
