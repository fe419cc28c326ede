// Prints the report of each book of docs/BOOKS.md and of the README, read from files, and what other words say of some of them.
#![tactic(auto)]

ghost use Rattle.std.specs.Io.{ReadsAtMost};

use commands::MOST_BYTES;
use fixing::MOST_WORDS;
use printing::{MOST_PLACES, NODE_LIMIT};
use say_words::Command;
use std::io;
use std::rt::Files;

// The book's bytes at the start of `book`; their number.
fn read(files: &impl Files, path: &str, book: &mut [u8]) -> io::Result<usize>
    ensures { ReadsAtMost result book.new }
{
    inputs::read_file(files, path, book)
}

fn print(
    rt: &impl Print,
    day: u16,
    command: Command,
    book: &[u8],
    out: &mut [u8],
) -> io::Result<()> {
    let k = commands::run(book, day, command, &[], &[], out);
    rt.write_all(&out[..k])
}

// What the command prints on the book on the day.
fn show_on(rt: &(impl Files + Print), path: &str, day: u16, command: Command) -> io::Result<()> {
    let mut book = [0u8; 4097];
    let n = read(rt, path, &mut book)?;
    let mut out = [0u8; MOST_BYTES];
    print(rt, day, command, &book[..n], &mut out)
}

fn show(rt: &(impl Files + Print), path: &str, command: Command) -> io::Result<()> {
    show_on(rt, path, 0, command)
}

// The reports of the books whose names stand here, with a space between.
fn report(rt: &(impl Files + Print), names: &str) -> io::Result<()> {
    for name in names.split_whitespace() {
        show(rt, name, Command::Search(NODE_LIMIT, MOST_PLACES))?;
    }
    Ok(())
}

fn either(rt: &(impl Files + Print), command: Command) -> io::Result<()> {
    show(rt, "either", command)
}

fn june(rt: &(impl Files + Print), day: u16, command: Command) -> io::Result<()> {
    show_on(rt, "june", day, command)
}

fn waived(rt: &(impl Files + Print), day: u16) -> io::Result<()> {
    show_on(rt, "waived", day, Command::Search(NODE_LIMIT, MOST_PLACES))
}

fn main(rt: HostRuntime) -> io::Result<()> {
    // first: paid, and the price is due where it is paid
    // unsaid: the price is due where fell is denied, which nothing does
    // denied: the same, and fell is denied
    // default: the price is due unless something says that it fell
    // defeated: the same, and it fell
    report(&rt, "first unsaid denied default defeated")?;
    // sold: paid, the motor turned and the drop sensor lit: it fell, and nothing is due
    // hung: the bar hung: the motor turned and the sensor stayed dark, so the price is due
    // either: no sensor: it fell or it hung, a model for each
    // witness: the same, and a witness: it cannot be that it hung
    // charged: as either, and the price is due where the motor turned
    report(&rt, "sold hung either witness charged")?;
    // stalled: paid, and the motor must have turned, which nothing says: no model
    // circle: a claim that holds unless it holds: no model
    // disputed: the sensor lit, and a bar hangs in the window: fell is contradictory, and no other name is
    report(&rt, "stalled circle disputed")?;
    // no newline at the end, two equal names, a value that is none, a clause of zeros: refused
    report(&rt, "unended twins misread blank")?;
    // a list of one place, a limit of 30 nodes, the fixpoint, the fixpoint in too little room, and the summary
    either(&rt, Command::Search(NODE_LIMIT, 1))?;
    either(&rt, Command::Search(30, MOST_PLACES))?;
    either(&rt, Command::Fixpoint(MOST_PLACES, MOST_WORDS))?;
    either(&rt, Command::Fixpoint(MOST_PLACES, 1))?;
    either(&rt, Command::Summary)?;
    // the summary of a book without a model
    show(&rt, "circle", Command::Summary)?;
    // words that are p-stable, violate a clause, have a smaller one within them, and are none over the names
    either(&rt, Command::Check(21))?;
    either(&rt, Command::Check(1))?;
    either(&rt, Command::Check(341))?;
    either(&rt, Command::Check(1024))?;
    // a clause that is new, one that stands already, one without a literal, and the book with the first one kept, which is charged
    either(&rt, Command::Hold(256, 4, 0, 0, 0))?;
    either(&rt, Command::Hold(1, 0, 0, 0, 0))?;
    either(&rt, Command::Hold(0, 0, 0, 0, 0))?;
    either(&rt, Command::Keep(256, 4, 0, 0, 0))?;
    // the constraint that it cannot be that it hung, kept: the book is witness
    either(&rt, Command::Keep(0, 64, 0, 0, 0))?;
    // june: the price is due only from day 151 to day 180: the day before, the last day, and the day behind
    june(&rt, 150, Command::Search(NODE_LIMIT, MOST_PLACES))?;
    june(&rt, 180, Command::Search(NODE_LIMIT, MOST_PLACES))?;
    june(&rt, 181, Command::Search(NODE_LIMIT, MOST_PLACES))?;
    // on day 181 a word with the price is no model of the clauses of that day: a smaller one is
    june(&rt, 181, Command::Check(17))?;
    // the clause of the price with other days, and with days that are in no order
    june(&rt, 0, Command::Keep(16, 1, 4, 212, 242))?;
    june(&rt, 0, Command::Hold(16, 1, 4, 242, 212))?;
    // waived: as june, and from day 160 to day 170 it cannot be that the price is due: the day before the constraint, its first day, and the day behind
    waived(&rt, 159)?;
    waived(&rt, 160)?;
    waived(&rt, 171)?;
    // early: a first day after its last: refused
    report(&rt, "early")
}
