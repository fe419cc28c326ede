// What `write` says of a table that was read, at the front of a slice with room for it.
#![tactic(auto)]

ghost use Rattle.lists.specs.Bytes.{Wrote};
ghost use Rattle.text.specs.Render.{render};
ghost use Rattle.printing.specs.Ready.{Ready};

use program::Program;

// The writer's text; with room for it, the writer takes every table that 9 does not refuse.
pub fn put_written(p: Program, out: &mut [u8]) -> usize
    requires { Ready p out.old }
    ensures { Wrote (render p) out.old result out.new }
{
    match writer::write_program(p, out) {
        Ok(n) => n,
        Err(_) => 0,
    }
}
