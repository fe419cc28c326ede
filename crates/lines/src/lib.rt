// A line of items at the front of a lent slice: of names, of numbers.
#![tactic(auto)]

ghost use Rattle.std.specs.Prelude.{◌≡◌, ◌≤◌, ◌<◌, length, take};
ghost use Rattle.sets.specs.Lists.{tabulate};
ghost use Rattle.lists.specs.Bytes.{Wrote};
ghost use Rattle.program.specs.Names.{name_at};
ghost use Rattle.text.specs.Lines.{names_line, values_line};
ghost use Rattle.lines.specs.Laying.{separator, item, number_at, Room, Spans};

use program::NAME_BYTES;
use text::{NEWLINE, SPACE};

// ---- items
// What stands behind the item before `i`: a space, or the line's end behind the last.
fn separator_of(i: usize, n: usize) -> u8
    ensures { result ≡ separator i n }
{
    if i < n { SPACE } else { NEWLINE }
}

// The length of the name in place `i`.
fn name_length(names: &[u8; program::ALL_NAME_BYTES], i: usize) -> usize
    requires { i < 12 }
    ensures { Spans (name_at names.now i) 8 result }
{
    let a = NAME_BYTES * i;
    lists::end_of(&names[a..a + NAME_BYTES], 0, 0)
}

// The name in place `i` at the front of `out`.
fn put_name(out: &mut [u8], names: &[u8; program::ALL_NAME_BYTES], i: usize) -> usize
    requires { (i < 12) × (length (name_at names.now i) ≤ length out.old) }
    ensures { Wrote (name_at names.now i) out.old result out.new }
{
    let k = name_length(names, i);
    let a = NAME_BYTES * i;
    lists::put_bytes(out, &names[a..a + k])
}

// The name in place `i`, the item `i` of `n` on its line, and what stands behind it.
fn put_name_item(out: &mut [u8], names: &[u8; program::ALL_NAME_BYTES], i: usize, n: usize) -> usize
    requires { (i < 12) × (length (item (name_at names.now) n i) ≤ length out.old) }
    ensures { Wrote (item (name_at names.now) n i) out.old result out.new }
{
    let k = put_name(out, names, i);
    out[k] = separator_of(i + 1, n);
    k + 1
}

// The value in place `i`, the item `i` of `n` on its line, and what stands behind it.
fn put_number_item(out: &mut [u8], values: &[u64], i: usize, n: usize) -> usize
    requires { (i < length values.now) × (length (item (number_at values.now) n i) ≤ length out.old) }
    ensures { Wrote (item (number_at values.now) n i) out.old result out.new }
{
    let k = decimal::put_decimal(out, values[i]);
    out[k] = separator_of(i + 1, n);
    k + 1
}

// ---- lines of items
// The names line of `n` atoms at the front of `out`, which has room for it; its length.
pub fn put_names_line(out: &mut [u8], names: &[u8; program::ALL_NAME_BYTES], n: usize) -> usize
    requires { Room n 12 (names_line (tabulate (name_at names.now) n)) out.old }
    ensures { Wrote (names_line (tabulate (name_at names.now) n)) out.old result out.new }
{
    let mut at = 0;
    for i in 0..n {
        at += put_name_item(&mut out[at..], names, i, n);
    }
    at
}

// A line of the first `n` values at the front of `out`, which has room for it; its length.
pub fn put_values_line(out: &mut [u8], values: &[u64], n: usize) -> usize
    requires { Room n (length values.now) (values_line (take n values.now)) out.old }
    ensures { Wrote (values_line (take n values.now)) out.old result out.new }
{
    let mut at = 0;
    for i in 0..n {
        at += put_number_item(&mut out[at..], values, i, n);
    }
    at
}
