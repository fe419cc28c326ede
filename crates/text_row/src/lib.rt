// A clause line of a text, read once as a row of numbers.
#![tactic(auto)]

ghost use Rattle.std.specs.Prelude.{◌≡◌, set};
ghost use Rattle.text.specs.Lines.{value_of};
ghost use Rattle.text_row.specs.Rows.{row_of};

use text::SPACE;

// The numbers of a row: one for each of the most names, and two behind them.
pub const ROW_PLACES: usize = program::MOST_ATOMS + 2;

// The largest number that an item is read as, and what stands for an item that is no number.
const MOST_NUMBER: u64 = 65535;

const NO_NUMBER: u32 = 65536;

// The numbers on a line: how many items stand on it, and the number that each of the first `ROW_PLACES` is.
#[derive(Clone, Copy)]
pub struct Row {
    pub count: usize,
    pub values: [u32; ROW_PLACES],
}

// What a clause line says: whether it has a value for each name and the days it should have, whether the values are all zero,
// whether its first day is after its last, the words of its clause, and its days.
#[derive(Clone, Copy)]
pub struct ClauseLine {
    pub holds: bool,
    pub zero: bool,
    pub reversed: bool,
    pub head: u32,
    pub body: u32,
    pub naf: u32,
    pub first: u16,
    pub last: u16,
}

// The number up to `MOST_NUMBER` that `s` is the decimal text of, `NO_NUMBER` for none.
fn value_of(s: &[u8]) -> u32
    ensures { result ≡ value_of s.now }
{
    match decimal::read_number(s, MOST_NUMBER) {
        Some(v) => v as u32,
        None => NO_NUMBER,
    }
}

// Puts `v` at place `i`, where there is such a place.
fn keep(values: &mut [u32], i: usize, v: u32)
    ensures { values.new ≡ set values.old i v }
{
    if i < values.len() {
        values[i] = v;
    }
}

// The numbers on a line.
pub fn row_of(line: &[u8]) -> Row
    ensures { result ≡ row_of line.now }
{
    let mut values = [0u32; ROW_PLACES];
    let mut count: usize = 0;
    for item in line.split(|b| *b == SPACE) {
        keep(&mut values, count, value_of(item));
        count += 1;
    }
    Row { count, values }
}
