// W: how many members the vocabulary of the transform of a table's clauses has.
#![tactic(auto)]

ghost use Rattle.std.specs.Prelude.{◌≡◌, true, ◌*◌, ◌≤◌, length};
ghost use Rattle.sets.specs.Lists.{tabulate};
ghost use Rattle.program.specs.Clauses.{clause_of, clause_at, standing};
ghost use Rattle.program.specs.Valid.{valid};
ghost use Rattle.transform.specs.Transform.{stand_ins, all_stand_ins, members};
ghost use Rattle.vocabulary.specs.Vocabulary.{literals_of};

use program::Program;

// How many stand-ins a clause gets.
pub fn stand_ins(head: u32, body: u32, naf: u32) -> u32
    ensures { (result ≡ stand_ins (clause_of head body naf)) × (result ≤ 64) }
{
    if naf == 0 { 0 } else { head.count_ones() }
}

// How many stand-ins the clauses get.
fn count_stand_ins<'a>(heads: &'a [u32], bodies: &'a [u32], nafs: &'a [u32], count: usize) -> u32
    requires { (count ≤ 64) × (count ≤ length heads.now) × (count ≤ length bodies.now) × (count ≤ length nafs.now) }
    ensures { (result ≡ all_stand_ins (tabulate (clause_at heads.now bodies.now nafs.now) count)) × (result ≤ 4096) }
{
    let mut n: u32 = 0;
    for k in 0..count {
        n += stand_ins(heads[k], bodies[k], nafs[k]);
    }
    n
}

// How many literals so many names have.
pub fn literal_count(atoms: usize) -> u32
    requires { atoms ≤ 12 }
    ensures { (result ≡ 2 * atoms) × (result ≤ 24) }
{
    (2 * atoms) as u32
}

// W of a valid table all of whose clauses count, as those of the table of a day do.
pub fn member_count(p: Program) -> u32
    requires { valid p ≡ true }
    ensures { result ≡ members (literals_of p) (standing p) }
{
    let m = literal_count(p.atom_count);
    let stands = count_stand_ins(&p.heads, &p.bodies, &p.nafs, p.clause_count);
    m + m + stands
}
