// The lines of a table's rows, at the front of a slice with room for them.
#![tactic(auto)]

ghost use Rattle.std.specs.Prelude.{◌≡◌, ◌≤◌};
ghost use mathlib.Core.List.{flat_map};
ghost use Rattle.lists.specs.Bytes.{Wrote};
ghost use Rattle.program.specs.Clauses.{clause_of, row_of};
ghost use Rattle.program.specs.Values.{clause_value, clause_values};
ghost use Rattle.text.specs.Lines.{values_line};
ghost use Rattle.text.specs.Render.{row_numbers, numbers_of};
ghost use Rattle.lines.specs.Laying.{Room};

use program::Program;
use std::array;
use text::SPACE;

// The value of atom `i` in a clause.
fn clause_value(head: u32, body: u32, naf: u32, i: usize) -> u64
    ensures { result ≡ clause_value (clause_of head body naf) i }
{
    let h = u64::from(table_fields::value_in(head, i));
    let b = u64::from(table_fields::value_in(body, i));
    let f = u64::from(table_fields::value_in(naf, i));
    h + 4 * b + 16 * f
}

// The values of a clause.
fn clause_values(head: u32, body: u32, naf: u32) -> [u64; program::MOST_ATOMS]
    ensures { result ≡ clause_values 12 (clause_of head body naf) }
{
    array::from_fn(|i| clause_value(head, body, naf, i))
}

// The line of the values of a clause at the front of `out`.
fn put_clause_line(out: &mut [u8], head: u32, body: u32, naf: u32, n: usize) -> usize
    requires { Room n 12 (values_line (clause_values n (clause_of head body naf))) out.old }
    ensures { Wrote (values_line (clause_values n (clause_of head body naf))) out.old result out.new }
{
    lines::put_values_line(out, &clause_values(head, body, naf), n)
}

// The line of a row at the front of `out`: of a dated book the end of the line of its values becomes a space, and its days stand behind.
fn put_row_line(
    out: &mut [u8],
    head: u32,
    body: u32,
    naf: u32,
    first: u16,
    last: u16,
    n: usize,
    dated: bool,
) -> usize
    requires { Room n 12 (values_line (row_numbers dated n (row_of (clause_of head body naf) first last))) out.old }
    ensures { Wrote (values_line (row_numbers dated n (row_of (clause_of head body naf) first last))) out.old result out.new }
{
    let a = put_clause_line(out, head, body, naf, n);
    if !dated {
        return a;
    }
    out[a - 1] = SPACE;
    let days = [u64::from(first), u64::from(last)];
    let b = lines::put_values_line(&mut out[a..], &days, 2);
    a + b
}

// The lines of the rows, each placed behind the last.
pub fn put_row_lines(p: Program, out: &mut [u8]) -> usize
    requires { (p.clause_count ≤ 64) × Room p.atom_count 12 (flat_map values_line (numbers_of p)) out.old }
    ensures { Wrote (flat_map values_line (numbers_of p)) out.old result out.new }
{
    let mut at = 0;
    for k in 0..p.clause_count {
        at += put_row_line(
            &mut out[at..],
            p.heads[k],
            p.bodies[k],
            p.nafs[k],
            p.firsts[k],
            p.lasts[k],
            p.atom_count,
            p.dated,
        );
    }
    at
}
