// What is printed on a book: one call for all words of the command line, and the report.
#![tactic(auto)]

ghost use Rattle.say_words.specs.Printing.{Prints};
ghost use Rattle.say_words.specs.Commands.{output, report_of};

use say_words::Command;

// A slice of so many bytes has room for every text that is printed.
pub const MOST_BYTES: usize = 103_000;

// What the command prints on `text`, of the day, at the front of `out`, or nothing where `out` is shorter than `MOST_BYTES`; its length.
pub fn run(
    text: &[u8],
    day: u16,
    command: Command,
    numbers: &[u32],
    bytes: &[u8],
    out: &mut [u8],
) -> usize
    ensures { Prints (output day command numbers.now bytes.now text.now) out.old result out.new }
{
    if out.len() < MOST_BYTES {
        return 0;
    }
    let read = reader::read_program(text);
    let verdict = read.verdict;
    let program = read.program;
    match verdict {
        Ok(()) => say_command::put_command(program, day, command, numbers, bytes, out),
        Err(refusal) => printing::put_refused(u8::from(refusal), out),
    }
}

// The report on `text`: a search on day 0 with its limit and its list.
pub fn report(text: &[u8], out: &mut [u8]) -> usize
    ensures { Prints (report_of text.now) out.old result out.new }
{
    run(text, 0, say_report::report_command(), &[], &[], out)
}
