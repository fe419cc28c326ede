// Tries the engine from outside, by its public calls alone: books with stored models, lists with stored summaries, candidates with stored answers,
// trees with stored counts, dated books on their days, clauses that are held and kept, constraints among them.
// A line for each family says how many were tried and how many agree.
// What is asked of a book stands in a file for each family, and the calls themselves in `asking`.
// The first disagreement is printed with both answers and its record's label, and ends the program.
#![tactic(auto)]

mod asking;
mod candidates;
mod checks;
mod days;
mod fixpoints;
mod holdings;
mod nodes;
mod saying;
mod searches;
mod summaries;
mod texts;

ghost use Rattle.std.specs.Prelude.{◌≡◌, ◌<◌, ◌≤◌, length, IfOk};
ghost use Rattle.std.specs.Io.{ReadsAtMost};

use answers::{FREE, PLACES, Source};
use asking::ANY_DAY;
use std::io;
use std::rt::Files;

// A record's outcome; what is not asked is a call that is refused so.
#[derive(Drop)]
enum Tried {
    Agrees,
    Differs,
    NotAsked(u64),
}

// The calls that a book is put to.
#[derive(Clone, Copy)]
enum Family {
    Texts,
    Searches,
    Fixpoints,
    Candidates,
    Summaries,
    Checks,
    Nodes,
    Days,
    Holdings,
}

// What is stored in a file beside each book.
#[derive(Drop)]
enum Stored {
    Models,
    Summaries,
    Checks,
    Nodes,
    Days,
    Holdings,
}

fn tried_if(agrees: bool) -> Tried {
    if agrees {
        Tried::Agrees
    } else {
        Tried::Differs
    }
}

fn ask(rt: &impl Print, family: Family, text: &[u8], words: &[u32]) -> io::Result<Tried> {
    let p = asking::table_of(text);
    Ok(match family {
        Family::Texts => tried_if(texts::agrees(rt, text)?),
        Family::Searches => tried_if(searches::agrees(rt, p, ANY_DAY, words)?),
        Family::Fixpoints => fixpoints::tried(rt, p, ANY_DAY, words)?,
        Family::Candidates => tried_if(candidates::agrees(rt, p, ANY_DAY, words)?),
        Family::Summaries => tried_if(summaries::agrees(rt, p, words)?),
        Family::Checks => tried_if(checks::agrees(rt, p, ANY_DAY, words)?),
        Family::Nodes => tried_if(nodes::agrees(rt, p, words)?),
        Family::Days => tried_if(days::agrees(rt, text, words)?),
        Family::Holdings => tried_if(holdings::agrees(rt, text, words)?),
    })
}

// ---- records
fn word_of(n: u64) -> u32 {
    n.min(u64::from(FREE)) as u32
}

// The numbers of a line as words; how many there are.
fn read_words(line: &[u8], words: &mut [u32]) -> usize
    ensures { result ≤ length words.new }
{
    let mut at = 0;
    for n in 0..words.len() {
        if line.len() <= at {
            return n;
        }
        let number = records::number_at(line, at);
        words[n] = word_of(number.value);
        at = number.next;
    }
    words.len()
}

// A record that the file's end cuts disagrees.
fn try_book(
    rt: &impl Print,
    family: Family,
    whole: bool,
    text: &[u8],
    line: &[u8],
) -> io::Result<Tried> {
    if !whole {
        return Ok(tried_if(saying::is_number(rt, Source::Record, 1, 0, 0)?));
    }
    let mut words = [FREE; PLACES];
    let n = read_words(line, &mut words);
    ask(rt, family, text, &words[..n])
}

// What a record gives: whether it disagrees, what it counts, and where the next begins.
#[derive(Drop)]
struct Step {
    differs: bool,
    counts: u64,
    next: usize,
}

fn step_to(tried: Tried, next: usize) -> Step
    ensures { result.next ≡ next }
{
    Step {
        differs: matches!(tried, Tried::Differs),
        counts: u64::from(matches!(tried, Tried::Agrees)),
        next,
    }
}

fn try_record(rt: &impl Print, family: Family, file: &[u8], at: usize) -> io::Result<Step>
    requires { at < length file.now }
    ensures at_lt_next { IfOk result (λ step. at < step.next) }
    ensures next_in_bounds { IfOk result (λ step. step.next ≤ length file.now) }
{
    let r = records::record_at(file, at);
    let tried = try_book(
        rt,
        family,
        r.whole,
        &file[r.text..r.text_end],
        &file[r.line..r.line_end],
    )?;
    Ok(step_to(tried, r.next))
}

fn print_label(rt: &impl Print, file: &[u8], at: usize) -> io::Result<()>
    requires { at < length file.now }
{
    let r = records::record_at(file, at);
    saying::print(rt, b", at ")?;
    saying::print(rt, &file[at..r.label_end])?;
    saying::print(rt, b"\n")
}

// How many records agree; none where one does not.
fn count_agreeing(rt: &impl Print, family: Family, file: &[u8]) -> io::Result<u64> {
    let mut at = 0;
    let mut n: u64 = 0;
    // A `while`: each record says where the next begins.
    while at < file.len() {
        let step = try_record(rt, family, file, at)?;
        if step.differs {
            print_label(rt, file, at)?;
            return Ok(0);
        }
        n = n.wrapping_add(step.counts);
        at = step.next;
    }
    Ok(n)
}

// ---- files
// The number of records that agree, 0 where one does not and the family was stopped.
fn print_counts(rt: &impl Print, agree: u64) -> io::Result<bool> {
    if agree == 0 {
        saying::print(rt, b"stopped\n")?;
        return Ok(false);
    }
    saying::print_number(rt, agree)?;
    saying::print(rt, b" tried, ")?;
    saying::print_number(rt, agree)?;
    saying::print(rt, b" agree\n")?;
    Ok(true)
}

// Tries a family on the records of a file; `asked` says what is asked of them.
fn try_family(rt: &impl Print, family: Family, asked: &[u8], file: &[u8]) -> io::Result<bool> {
    let agree = count_agreeing(rt, family, file)?;
    saying::print(rt, asked)?;
    print_counts(rt, agree)
}

fn try_families(rt: &impl Print, file: &[u8]) -> io::Result<bool> {
    Ok(
        try_family(rt, Family::Texts, b"  read and written back: ", file)?
            && try_family(rt, Family::Searches, b"  searched: ", file)?
            && try_family(rt, Family::Fixpoints, b"  by the fixpoint: ", file)?
            && try_family(rt, Family::Candidates, b"  candidates checked: ", file)?,
    )
}

// The file's bytes at the start of `file`; their number.
fn read(files: &impl Files, path: &str, file: &mut [u8]) -> io::Result<usize>
    ensures { ReadsAtMost result file.new }
{
    inputs::read_file(files, path, file)
}

fn try_stored(rt: &impl Print, stored: Stored, file: &[u8]) -> io::Result<bool> {
    match stored {
        Stored::Models => try_families(rt, file),
        Stored::Summaries => try_family(rt, Family::Summaries, b"  summed up: ", file),
        Stored::Checks => try_family(
            rt,
            Family::Checks,
            b"  checks, with clause and subset: ",
            file,
        ),
        Stored::Nodes => try_family(rt, Family::Nodes, b"  nodes counted: ", file),
        Stored::Days => try_family(rt, Family::Days, b"  weighed on a day: ", file),
        Stored::Holdings => try_family(rt, Family::Holdings, b"  held, let go and kept: ", file),
    }
}

// The largest file, the solver's books, has 237,618 bytes.
fn try_file(rt: &(impl Files + Print), path: &str, stored: Stored) -> io::Result<bool> {
    let mut file = [0u8; 262144];
    let n = read(rt, path, &mut file)?;
    saying::print(rt, path.as_bytes())?;
    saying::print(rt, b"\n")?;
    try_stored(rt, stored, &file[..n])
}

// Document 01's samples, the paper's examples, and random books with the models that an outside solver gives.
fn try_books(rt: &(impl Files + Print)) -> io::Result<bool> {
    Ok(
        try_file(rt, "samples", Stored::Models)?
            && try_file(rt, "paper", Stored::Models)?
            && try_file(rt, "solver", Stored::Models)?,
    )
}

// Lists with their summaries, candidates with their answers, trees with their counts.
fn try_calls(rt: &(impl Files + Print)) -> io::Result<bool> {
    Ok(
        try_file(rt, "summaries", Stored::Summaries)?
            && try_file(rt, "checks", Stored::Checks)?
            && try_file(rt, "nodes", Stored::Nodes)?,
    )
}

// Dated books with days, clauses to hold, and constraints to keep.
fn try_clauses(rt: &(impl Files + Print)) -> io::Result<bool> {
    Ok(
        try_file(rt, "days", Stored::Days)?
            && try_file(rt, "holdings", Stored::Holdings)?
            && try_file(rt, "constraints", Stored::Holdings)?,
    )
}

fn main(rt: HostRuntime) -> io::Result<()> {
    let _ = try_books(&rt)? && try_calls(&rt)? && try_clauses(&rt)?;
    Ok(())
}
