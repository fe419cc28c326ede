// The names line and the lines of models, each placed behind the last in a lent slice.
#![tactic(auto)]

ghost use Rattle.std.specs.Prelude.{◌≡◌, ◌++◌, ◌≤◌, length, take};
ghost use Rattle.sets.specs.Lists.{tabulate};
ghost use Rattle.lists.specs.Bytes.{Wrote};
ghost use Rattle.program.specs.Names.{name_at};
ghost use Rattle.program.specs.Values.{value_in, word_values};
ghost use Rattle.text.specs.Lines.{names_line, values_line};
ghost use Rattle.lines.specs.Laying.{Room};
ghost use Rattle.listings.specs.Listing.{model_lines};

use std::array;

// The values of a word.
fn word_values(w: u32) -> [u64; program::MOST_ATOMS]
    ensures { result ≡ tabulate (value_in w) 12 }
{
    array::from_fn(|i| u64::from(table_fields::value_in(w, i)))
}

// The line of a model at the front of `out`.
fn put_model_line(out: &mut [u8], w: u32, n: usize) -> usize
    requires { Room n 12 (values_line (word_values n w)) out.old }
    ensures { Wrote (values_line (word_values n w)) out.old result out.new }
{
    lines::put_values_line(out, &word_values(w), n)
}

// The lines of the first `m` words, each placed behind the last.
fn put_model_lines(out: &mut [u8], models: &[u32], m: usize, n: usize) -> usize
    requires { (m ≤ length models.now) × Room n 12 (model_lines n (take m models.now)) out.old }
    ensures { Wrote (model_lines n (take m models.now)) out.old result out.new }
{
    let mut at = 0;
    for k in 0..m {
        at += put_model_line(&mut out[at..], models[k], n);
    }
    at
}

// The names line, and the lines of the first `m` words behind it, at the front of `out`, which has room for them; their length.
pub fn put_listing(
    out: &mut [u8],
    names: &[u8; program::ALL_NAME_BYTES],
    n: usize,
    models: &[u32],
    m: usize,
) -> usize
    requires { (m ≤ length models.now) × Room n 12 (names_line (tabulate (name_at names.now) n) ++ model_lines n (take m models.now)) out.old }
    ensures { Wrote (names_line (tabulate (name_at names.now) n) ++ model_lines n (take m models.now)) out.old result out.new }
{
    let a = lines::put_names_line(out, names, n);
    let b = put_model_lines(&mut out[a..], models, m, n);
    a + b
}
