// Tries from outside what the engine refuses, at both sides of each edge: a line for each kind of record says how many were tried and how many agree.
// What is asked of a record stands in a file for each kind.
// The first disagreement is printed with both answers and its record's label, and ends the program.
#![tactic(auto)]

mod asking;
mod refusals;
mod rooms;
mod saying;
mod tables;
mod vocabularies;

ghost use Rattle.std.specs.Prelude.{◌<◌, ◌≤◌, length, IfOk};
ghost use Rattle.std.specs.Io.{ReadsAtMost};

use std::io;
use std::rt::Files;

// What is refused, a file of records for each.
#[derive(Clone, Copy)]
enum Edge {
    Refusals,
    Tables,
    Vocabulary,
    Rooms,
}

fn ask(rt: &impl Print, edge: Edge, text: &[u8], line: &[u8]) -> io::Result<bool> {
    let first = records::number_at(line, 0);
    match edge {
        Edge::Refusals => refusals::agrees(rt, text, first.value),
        Edge::Tables => tables::agrees(rt, text, line),
        Edge::Vocabulary => vocabularies::agrees(rt, text, first.value),
        Edge::Rooms => rooms::agrees(rt, text, first.value),
    }
}

fn is_answered(
    rt: &impl Print,
    edge: Edge,
    whole: bool,
    text: &[u8],
    line: &[u8],
) -> io::Result<bool> {
    if whole {
        return ask(rt, edge, text, line);
    }
    saying::is_enough(rt, answers::Source::Record, 1, 0)
}

// Where the next record begins; 0 where this one disagrees, as one does that the file's end cuts.
fn behind_record(rt: &impl Print, edge: Edge, file: &[u8], at: usize) -> io::Result<usize>
    requires { at < length file.now }
    ensures { IfOk result (λ next. next ≤ length file.now) }
{
    let r = records::record_at(file, at);
    if is_answered(
        rt,
        edge,
        r.whole,
        &file[r.text..r.text_end],
        &file[r.line..r.line_end],
    )? {
        return Ok(r.next);
    }
    saying::print(rt, b", at ")?;
    saying::print(rt, &file[at..r.label_end])?;
    saying::print(rt, b"\n")?;
    Ok(0)
}

// How many records agree; none where one does not.
fn count_agreeing(rt: &impl Print, edge: Edge, file: &[u8]) -> io::Result<u64> {
    let mut at = 0;
    let mut agree: u64 = 0;
    // A `while`: each record says where the next begins.
    while at < file.len() {
        let next = behind_record(rt, edge, file, at)?;
        if next <= at {
            return Ok(0);
        }
        agree = agree.wrapping_add(1);
        at = next;
    }
    Ok(agree)
}

// The bytes of the file at the start of `file`; their number.
fn fill(files: &impl Files, path: &str, file: &mut [u8]) -> io::Result<usize>
    ensures { ReadsAtMost result file.new }
{
    inputs::read_file(files, path, file)
}

// The largest file, the refusals, has 246,648 bytes.
// How many records of the file agree, read into a slice that is lent for it.
fn count_in(rt: &(impl Files + Print), path: &str, edge: Edge, file: &mut [u8]) -> io::Result<u64> {
    let n = fill(rt, path, file)?;
    count_agreeing(rt, edge, &file[..n])
}

fn count(rt: &(impl Files + Print), path: &str, edge: Edge) -> io::Result<u64> {
    let mut file = [0u8; 262144];
    count_in(rt, path, edge, &mut file)
}

fn is_tried(rt: &(impl Files + Print), path: &str, edge: Edge) -> io::Result<bool> {
    let agree = count(rt, path, edge)?;
    saying::print(rt, path.as_bytes())?;
    if agree == 0 {
        saying::print(rt, b": stopped\n")?;
        return Ok(false);
    }
    saying::print_number(rt, b": ", agree)?;
    saying::print_number(rt, b" tried, ", agree)?;
    saying::print(rt, b" agree\n")?;
    Ok(true)
}

fn main(rt: HostRuntime) -> io::Result<()> {
    if is_tried(&rt, "refusals", Edge::Refusals)?
        && is_tried(&rt, "tables", Edge::Tables)?
        && is_tried(&rt, "vocabulary", Edge::Vocabulary)?
    {
        is_tried(&rt, "rooms", Edge::Rooms)?;
    }
    Ok(())
}
