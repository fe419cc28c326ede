// Refusal 9, the names of a table: each place in use holds one, no two are equal, and the rest is zero.
#![tactic(auto)]

ghost use Rattle.std.specs.Prelude.{◌≡◌, ◌+◌, ◌≤◌, ◌<◌, take};
ghost use Rattle.sets.specs.Lists.{every, any_of, onward, tabulate};
ghost use Rattle.lists.specs.Bytes.{index, same, distinct};
ghost use Rattle.program.specs.Names.{place, name_at, ends_dated};
ghost use Rattle.program.specs.Valid.{zero_from, is_place, names_valid};

// ---- unused places
fn zero_bytes(s: &[u8], from: usize) -> bool
    ensures { result ≡ zero_from from s.now }
{
    s.iter().skip(from).all(|x| *x == 0)
}

// ---- the names of a table
// Whether a place holds a name, and zeros behind it.
fn is_place(s: &[u8]) -> bool
    ensures { result ≡ is_place s.now }
{
    let n = lists::end_of(s, 0, 0);
    table_names::is_name(&s[..n]) && zero_bytes(s, n)
}

// The place `i`.
fn place_of(names: &[u8; program::ALL_NAME_BYTES], i: usize) -> &[u8]
    requires { i < 12 }
    ensures { result.now ≡ place names.now i }
{
    let a = program::NAME_BYTES * i;
    &names[a..a + program::NAME_BYTES]
}

fn place_holds(names: &[u8; program::ALL_NAME_BYTES], i: usize) -> bool
    requires { i < 12 }
    ensures { result ≡ is_place (place names.now i) }
{
    is_place(place_of(names, i))
}

fn places_hold(names: &[u8; program::ALL_NAME_BYTES], n: usize) -> bool
    requires { n ≤ 12 }
    ensures { result ≡ every is_place (tabulate (place names.now) n) }
{
    for i in 0..n {
        if !place_holds(names, i) {
            return false;
        }
    }
    true
}

fn same_places(names: &[u8; program::ALL_NAME_BYTES], i: usize, j: usize) -> bool
    requires { (i < 12) × (j < 12) }
    ensures { result ≡ same (place names.now i) (place names.now j) }
{
    lists::same_bytes(place_of(names, i), place_of(names, j))
}

// Whether the place `i` stands again behind it.
fn repeated(names: &[u8; program::ALL_NAME_BYTES], n: usize, i: usize) -> bool
    requires { (n ≤ 12) × (i < n) }
    ensures { result ≡ any_of (same (place names.now i)) (onward (place names.now) n (i + 1)) }
{
    for j in i + 1..n {
        if same_places(names, i, j) {
            return true;
        }
    }
    false
}

fn places_differ(names: &[u8; program::ALL_NAME_BYTES], n: usize) -> bool
    requires { n ≤ 12 }
    ensures { result ≡ distinct (tabulate (place names.now) n) }
{
    for i in 0..n {
        if repeated(names, n, i) {
            return false;
        }
    }
    true
}

// Whether the bytes before the first zero are this word.
fn is_named(s: &[u8], word: &[u8]) -> bool
    ensures { result ≡ same (take (index 0 s.now) s.now) word.now }
{
    let n = lists::end_of(s, 0, 0);
    lists::same_bytes(&s[..n], word)
}

#[tactic(auto, unfolding(program::specs::Names::name_at))]
fn name_is(names: &[u8; program::ALL_NAME_BYTES], i: usize, word: &[u8]) -> bool
    requires { i < 12 }
    ensures { result ≡ same (name_at names.now i) word.now }
{
    is_named(place_of(names, i), word)
}

// Whether the names end in from, to behind another: a book with them would be read as dated.
fn ends_dated(names: &[u8; program::ALL_NAME_BYTES], n: usize) -> bool
    requires { n ≤ 12 }
    ensures { result ≡ ends_dated (tabulate (name_at names.now) n) }
{
    3 <= n && name_is(names, n - 2, b"from") && name_is(names, n - 1, b"to")
}

// Whether there are 1 to 12 names, each in its place, all different, and not those of a dated book in an undated table.
#[tactic(auto, unfolding(program::specs::Valid::names_valid))]
pub fn names_valid(dated: bool, names: &[u8; program::ALL_NAME_BYTES], n: usize) -> bool
    ensures { result ≡ names_valid dated names.now n }
{
    1 <= n
        && n <= program::MOST_ATOMS
        && places_hold(names, n)
        && places_differ(names, n)
        && zero_bytes(names, program::NAME_BYTES * n)
        && (dated || !ends_dated(names, n))
}
