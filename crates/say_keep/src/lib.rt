// What `keep` says of a table that was read, at the front of a slice with room for it.
#![tactic(auto)]

ghost use Rattle.lists.specs.Bytes.{Wrote};
ghost use Rattle.program.specs.Clauses.{clause_of};
ghost use Rattle.text.specs.Render.{render};
ghost use Rattle.held.specs.Clearing.{keep_of};
ghost use Rattle.printing.specs.Ready.{Ready};
ghost use Rattle.holding.specs.Texts.{keep_text};

use program::Program;

// The text of the table with its held clause kept.
fn put_kept(p: Program, out: &mut [u8]) -> usize
    requires { Ready p out.old }
    ensures { Wrote (render (keep_of p).program) out.old result out.new }
{
    say_written::put_written(clear::keep(p).program, out)
}

// The book with the clause held and then kept.
pub fn put_keep(
    p: Program,
    head: u32,
    body: u32,
    naf: u32,
    first: u16,
    last: u16,
    out: &mut [u8],
) -> usize
    requires { Ready p out.old }
    ensures { Wrote (keep_text (clause_of head body naf) first last p) out.old result out.new }
{
    let held = hold::hold(p, head, body, naf, first, last);
    match held.status {
        Ok(_) => put_kept(held.program, out),
        Err(refusal) => printing::put_refused(u8::from(refusal), out),
    }
}
