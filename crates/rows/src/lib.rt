// What a row of numbers says for so many names.
#![tactic(auto)]

ghost use Rattle.std.specs.Prelude.{◌≡◌, ◌≤◌};
ghost use Rattle.text_row.specs.Rows.{wanted, day_of, weighed};

use text_row::{ClauseLine, Row};

// How many numbers stand on a line for `n` names: two more where the book is dated.
fn numbers_wanted(n: usize, dated: bool) -> usize
    requires { n ≤ 12 }
    ensures { result ≡ wanted dated n }
{
    if dated { n + 2 } else { n }
}

// A number as a day, which it is up to 65535.
fn day_of(v: u32) -> u16
    ensures { result ≡ day_of v }
{
    (v % 65536) as u16
}

// What a row says for `n` names: the tests of its values and its three words in one pass, the last name first; its days stand behind them.
pub fn weigh(row: Row, n: usize, dated: bool) -> ClauseLine
    requires { n ≤ 12 }
    ensures { result ≡ weighed dated n row }
{
    let values = row.values;
    let first = values[n];
    let last = values[n + 1];
    let counted = row.count == numbers_wanted(n, dated);
    // `&`: the tests are one value, with which the loop begins.
    let mut holds = (first <= 65535) & (last <= 65535) & counted;
    let mut zero = counted;
    let mut head: u32 = 0;
    let mut body: u32 = 0;
    let mut naf: u32 = 0;
    for i in (0..n).rev() {
        let v = values[i];
        holds &= v <= 63;
        zero &= v == 0;
        head = v % 4 + 4 * head;
        body = v / 4 % 4 + 4 * body;
        naf = v / 16 % 4 + 4 * naf;
    }
    ClauseLine {
        holds,
        zero,
        reversed: dated & (last < first),
        head,
        body,
        naf,
        first: day_of(first),
        last: day_of(last),
    }
}
