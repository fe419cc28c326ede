// The values that one atom takes in a list of words, and whether it is settled.
#![tactic(auto)]

ghost use Rattle.std.specs.Prelude.{◌≡◌, ◌≤◌};
ghost use Rattle.summary.specs.Summary.{occurs, occurring_in, is_settled, bit_if, shown_at};

// Whether atom `i` takes the value `v` in some word.
fn value_occurs(words: &[u32], i: usize, v: u8) -> bool
    ensures { result ≡ occurs v i words.now }
{
    words.iter().any(|w| table_fields::value_in(*w, i) == v)
}

// The bit of the value `v` where atom `i` takes it in some word, 0 where not.
fn bit_of(words: &[u32], i: usize, v: u8, bit: u8) -> u8
    ensures { (result ≡ bit_if (occurs v i words.now) bit) × (result ≤ bit) }
{
    if value_occurs(words, i, v) { bit } else { 0 }
}

// The values that atom `i` takes.
fn occurring_in(words: &[u32], i: usize) -> u8
    ensures { result ≡ occurring_in words.now i }
{
    bit_of(words, i, 0, 1)
        + bit_of(words, i, 1, 2)
        + bit_of(words, i, 2, 4)
        + bit_of(words, i, 3, 8)
}

// Whether exactly one value is shown.
pub fn is_settled(s: u8) -> bool
    ensures { result ≡ is_settled s }
{
    s % 2 + s / 2 % 2 + s / 4 % 2 + s / 8 % 2 == 1
}

// The values that atom `i` takes, none where the program does not have it.
pub fn shown_at(words: &[u32], n: usize, i: usize) -> u8
    ensures { result ≡ shown_at n words.now i }
{
    if i < n { occurring_in(words, i) } else { 0 }
}
