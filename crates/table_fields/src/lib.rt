// What stands in the fields of a table: a word over its atoms and the values in it, and the separate place where nothing is held.
#![tactic(auto)]

ghost use Rattle.std.specs.Prelude.{◌≡◌, ◌%◌};
ghost use Rattle.program.specs.Held.{nothing_held};
ghost use Rattle.program.specs.Values.{is_word, value_in};

use program::HeldClause;

// The separate place where nothing is held.
pub fn nothing_held() -> HeldClause
    ensures { result ≡ nothing_held }
{
    HeldClause {
        in_use: false,
        head: 0,
        body: 0,
        naf: 0,
        first: 0,
        last: 0,
    }
}

// Whether `w` has no bit at 2n or above.
pub fn is_word(n: usize, w: u32) -> bool
    ensures { result ≡ is_word n w }
{
    if 16 <= n {
        return true;
    }
    w < 1 << (2 * n)
}

// The value of atom `i` in the word `w`.
pub fn value_in(w: u32, i: usize) -> u8
    ensures { result ≡ value_in w i }
{
    if 16 <= i {
        return 0;
    }
    low_two(w >> (2 * i))
}

fn low_two(w: u32) -> u8
    ensures { result ≡ w % 4 }
{
    (w & 3) as u8
}
