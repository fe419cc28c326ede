// What a word of the command line says of a table that was read.
#![tactic(auto)]

ghost use Rattle.lists.specs.Bytes.{Wrote};
ghost use Rattle.printing.specs.Ready.{Ready};
ghost use Rattle.say_words.specs.Commands.{text_of};

use program::Program;
use say_words::Command;

// What the command says of the table on the day; none of these takes the numbers or the bytes.
pub fn put_command(
    p: Program,
    day: u16,
    command: Command,
    numbers: &[u32],
    bytes: &[u8],
    out: &mut [u8],
) -> usize
    requires { Ready p out.old }
    ensures { Wrote (text_of day command numbers.now bytes.now p) out.old result out.new }
{
    match command {
        Command::Check(word) => checking::put_check(p, day, word, out),
        Command::Search(node_limit, places) => {
            searching::put_search(p, day, node_limit, places, out)
        }
        Command::Fixpoint(places, capacity) => fixing::put_fixpoint(p, day, places, capacity, out),
        Command::Summary => summing::put_summary(p, day, out),
        Command::Write => say_written::put_written(p, out),
        Command::Hold(head, body, naf, first, last) => {
            holding::put_hold(p, head, body, naf, first, last, out)
        }
        Command::Keep(head, body, naf, first, last) => {
            say_keep::put_keep(p, head, body, naf, first, last, out)
        }
    }
}
