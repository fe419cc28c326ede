// What `check` says of a table that was read, at the front of a slice with room for it.
#![tactic(auto)]

ghost use Rattle.std.specs.Prelude.{◌≤◌, length};
ghost use Rattle.lists.specs.Bytes.{Wrote};
ghost use Rattle.wording.specs.Printed.{numbered};
ghost use Rattle.printing.specs.Ready.{most_bytes, Ready};
ghost use Rattle.checking.specs.Texts.{finding_line, check_text};

use program::Program;
use stable::Checked;

// A word for what the check found, and its number.
fn put_found(word: &[u8], v: u32, out: &mut [u8]) -> usize
    requires { (length word.now ≤ 20) × (most_bytes ≤ length out.old) }
    ensures { Wrote (numbered word.now v) out.old result out.new }
{
    wording::put_numbered_line(out, word, v as u64)
}

// What the check found.
fn put_finding(finding: Checked, out: &mut [u8]) -> usize
    requires { most_bytes ≤ length out.old }
    ensures { Wrote (finding_line finding) out.old result out.new }
{
    match finding {
        Checked::Violated(k) => put_found(b"violated", k, out),
        Checked::Smaller(j) => put_found(b"smaller", j, out),
        Checked::Stable => lists::put_bytes(out, b"stable\n"),
    }
}

// What the check of the word says on the day.
pub fn put_check(p: Program, day: u16, word: u32, out: &mut [u8]) -> usize
    requires { Ready p out.old }
    ensures { Wrote (check_text day word p) out.old result out.new }
{
    match checker::check(p, day, word) {
        Ok(finding) => put_finding(finding, out),
        Err(refusal) => printing::put_refused(u8::from(refusal), out),
    }
}
