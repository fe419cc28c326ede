// The rows of a program in one array, and those that rule out every word between two.
#![tactic(auto)]

ghost use Rattle.std.specs.Prelude.{◌≡◌};
ghost use Rattle.sets.specs.Lists.{any_of};
ghost use Rattle.literals.specs.Literals.{members};
ghost use Rattle.program.specs.Clauses.{clause_of};
ghost use Rattle.leaf.specs.Packed.{packed_at, Packs};
ghost use Rattle.leaf.specs.Leaf.{rules_out};

// The three columns in one array.
pub fn pack<'a>(
    heads: &'a [u32; program::MOST_CLAUSES],
    bodies: &'a [u32; program::MOST_CLAUSES],
    nafs: &'a [u32; program::MOST_CLAUSES],
) -> [u32; leaf::WORDS]
    ensures { Packs heads.now bodies.now nafs.now result }
{
    let mut table = [0u32; leaf::WORDS];
    table[..leaf::BODIES].copy_from_slice(heads);
    table[leaf::BODIES..leaf::NAFS].copy_from_slice(bodies);
    table[leaf::NAFS..].copy_from_slice(nafs);
    table
}

// ---- clauses that rule out every word from `w` up to `reach`
// Whether the body lies in `w`, the not-part misses `by` and the head misses `reach`; one test, since three are three branches.
pub fn rules_out(head: u32, body: u32, naf: u32, by: u32, w: u32, reach: u32) -> bool
    ensures { result ≡ rules_out by w reach (clause_of head body naf) }
{
    ((body - (body & w)) | (naf & by) | (head & reach)) == 0
}

// Whether that is so of some row of a set: the lowest row is asked first.
pub fn some_rules_out(table: &[u32; leaf::WORDS], rows: u64, by: u32, w: u32, reach: u32) -> bool
    ensures { result ≡ any_of (λ i. rules_out by w reach (packed_at table.now i)) (members rows) }
{
    for row in literals::members(rows) {
        let i = row as usize;
        if rules_out(
            table[i],
            table[leaf::BODIES + i],
            table[leaf::NAFS + i],
            by,
            w,
            reach,
        ) {
            return true;
        }
    }
    false
}
