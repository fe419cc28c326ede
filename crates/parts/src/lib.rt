// The literal parts of the canonical ones among some words, as a set, and written into a list.
#![tactic(auto)]

ghost use Rattle.std.specs.Prelude.{◌≡◌, ◌^◌, ◌≤◌, ◌<◌, length, take};
ghost use Rattle.sets.specs.Lists.{Each};
ghost use Rattle.rising.specs.Slices.{Prefix};
ghost use Rattle.transform.specs.Listing.{literal_part, canonical, parts_of};
ghost use Rattle.parts.specs.Overwriting.{overwrite, Overwrites};

// The `m` lowest bits.
fn low_part(w: u64, m: u32) -> u64
    requires { m < 64 }
    ensures { result ≡ literal_part m w }
{
    w & ((1 << m) - 1)
}

// Whether `w` holds L wherever it holds K L.
fn is_canonical(w: u64, m: u32) -> bool
    requires { m < 64 }
    ensures { result ≡ canonical m w }
{
    literals::subset(low_part(w >> m, m), low_part(w, m))
}

// Forms in `set` the set of the literal parts of the canonical ones among the first `count` words.
fn collect(list: &[u64], count: usize, m: u32, set: &mut [u64]) -> usize
    requires { (count ≤ length list.now) × (count ≤ length set.old) × (m < 64) }
    ensures { Prefix (parts_of m (take count list.now)) set.new result }
{
    let mut n = 0;
    for p in 0..count {
        if is_canonical(list[p], m) {
            n = fix_add::add(set, n, low_part(list[p], m));
        }
    }
    fix_add::settle(set, n);
    n
}

// Writes the first `count` words into the list, as many as fit.
fn write_models(words: &[u64], count: usize, models: &mut [u32])
    requires { (count ≤ length words.now) × Each (λ x. x < 2 ^ 32) (take count words.now) }
    ensures { models.new ≡ overwrite models.old (take count words.now) }
{
    let n = count.min(models.len());
    for p in 0..n {
        models[p] = words[p] as u32;
    }
}

// Writes the literal parts of the canonical ones among the first `count` words into the list, as many as fit, and gives their number; it forms them in `set`.
pub fn list_parts(list: &[u64], count: usize, m: u32, set: &mut [u64], models: &mut [u32]) -> usize
    requires { (count ≤ length list.now) × (count ≤ length set.old) × (m ≤ 32) }
    ensures { Overwrites (parts_of m (take count list.now)) models.old models.new result }
{
    let k = collect(list, count, m, set);
    write_models(set, k, models);
    k
}
