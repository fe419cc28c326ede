// The names line and the lines of a summary, each placed behind the last in a lent slice.
#![tactic(auto)]

ghost use Rattle.std.specs.Prelude.{◌≡◌, ◌++◌, ◌/◌, ◌%◌, ◌≤◌};
ghost use Rattle.sets.specs.Lists.{tabulate};
ghost use Rattle.lists.specs.Bytes.{Wrote};
ghost use Rattle.program.specs.Names.{name_at};
ghost use Rattle.text.specs.Lines.{names_line};
ghost use Rattle.lines.specs.Laying.{Room};
ghost use Rattle.summarylines.specs.Summary.{bit_at, bits_line, four_lines, flag_at, flags_line};

use std::array;

// The bit of `x` that counts `k`.
fn bit_of(x: u8, k: u64) -> u64
    requires { 1 ≤ k }
    ensures { result ≡ x / k % 2 }
{
    u64::from(x) / k % 2
}

// The bits that count `k`.
fn bits_of(shown: &[u8; program::MOST_ATOMS], k: u64) -> [u64; program::MOST_ATOMS]
    requires { 1 ≤ k }
    ensures { result ≡ tabulate (bit_at k shown.now) 12 }
{
    array::from_fn(|i| bit_of(shown[i], k))
}

// The flags, 1 for true.
fn ones_of(flags: &[bool; program::MOST_ATOMS]) -> [u64; program::MOST_ATOMS]
    ensures { result ≡ tabulate (flag_at flags.now) 12 }
{
    array::from_fn(|i| u64::from(flags[i]))
}

fn put_bits(out: &mut [u8], shown: &[u8; program::MOST_ATOMS], k: u64, n: usize) -> usize
    requires { (1 ≤ k) × Room n 12 (bits_line k shown.now n) out.old }
    ensures { Wrote (bits_line k shown.now n) out.old result out.new }
{
    lines::put_values_line(out, &bits_of(shown, k), n)
}

fn put_flags(out: &mut [u8], flags: &[bool; program::MOST_ATOMS], n: usize) -> usize
    requires { Room n 12 (flags_line flags.now n) out.old }
    ensures { Wrote (flags_line flags.now n) out.old result out.new }
{
    lines::put_values_line(out, &ones_of(flags), n)
}

fn put_two(out: &mut [u8], shown: &[u8; program::MOST_ATOMS], j: u64, k: u64, n: usize) -> usize
    requires { (1 ≤ j) × (1 ≤ k) × Room n 12 (bits_line j shown.now n ++ bits_line k shown.now n) out.old }
    ensures { Wrote (bits_line j shown.now n ++ bits_line k shown.now n) out.old result out.new }
{
    let a = put_bits(out, shown, j, n);
    let b = put_bits(&mut out[a..], shown, k, n);
    a + b
}

fn put_four(out: &mut [u8], shown: &[u8; program::MOST_ATOMS], n: usize) -> usize
    requires { Room n 12 (four_lines shown.now n) out.old }
    ensures { Wrote (four_lines shown.now n) out.old result out.new }
{
    let a = put_two(out, shown, 1, 2, n);
    let b = put_two(&mut out[a..], shown, 4, 8, n);
    a + b
}

// The lines behind the names line.
fn put_shown(
    out: &mut [u8],
    shown: &[u8; program::MOST_ATOMS],
    flags: &[bool; program::MOST_ATOMS],
    n: usize,
) -> usize
    requires { Room n 12 (four_lines shown.now n ++ flags_line flags.now n) out.old }
    ensures { Wrote (four_lines shown.now n ++ flags_line flags.now n) out.old result out.new }
{
    let a = put_four(out, shown, n);
    let b = put_flags(&mut out[a..], flags, n);
    a + b
}

// The names line, the four lines of the values 0 to 3, and the line of the flags, at the front of `out`, which has room for them; their length.
pub fn put_summary(
    out: &mut [u8],
    names: &[u8; program::ALL_NAME_BYTES],
    n: usize,
    shown: &[u8; program::MOST_ATOMS],
    flags: &[bool; program::MOST_ATOMS],
) -> usize
    requires { Room n 12 (names_line (tabulate (name_at names.now) n) ++ (four_lines shown.now n ++ flags_line flags.now n)) out.old }
    ensures { Wrote (names_line (tabulate (name_at names.now) n) ++ (four_lines shown.now n ++ flags_line flags.now n)) out.old result out.new }
{
    let a = lines::put_names_line(out, names, n);
    let b = put_shown(&mut out[a..], shown, flags, n);
    a + b
}
