// What `hold` says of a table that was read, at the front of a slice with room for it.
#![tactic(auto)]

ghost use Rattle.std.specs.Prelude.{◌≤◌, length};
ghost use Rattle.lists.specs.Bytes.{Wrote};
ghost use Rattle.program.specs.Clauses.{clause_of};
ghost use Rattle.printing.specs.Ready.{most_bytes, Ready};
ghost use Rattle.holding.specs.Texts.{status_line, hold_text};

use held::HoldStatus;
use program::Program;

// Whether an equal clause stands already.
fn put_status(status: HoldStatus, out: &mut [u8]) -> usize
    requires { most_bytes ≤ length out.old }
    ensures { Wrote (status_line status) out.old result out.new }
{
    match status {
        HoldStatus::New => lists::put_bytes(out, b"new\n"),
        HoldStatus::Equal => lists::put_bytes(out, b"equal\n"),
    }
}

// Whether an equal clause stands already, or why the clause is not held.
pub fn put_hold(
    p: Program,
    head: u32,
    body: u32,
    naf: u32,
    first: u16,
    last: u16,
    out: &mut [u8],
) -> usize
    requires { Ready p out.old }
    ensures { Wrote (hold_text (clause_of head body naf) first last p) out.old result out.new }
{
    let answer = hold::hold(p, head, body, naf, first, last);
    match answer.status {
        Ok(status) => put_status(status, out),
        Err(refusal) => printing::put_refused(u8::from(refusal), out),
    }
}
