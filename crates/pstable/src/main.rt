// pstable: a word of the command line is run on the book from standard input.
#![tactic(auto)]

ghost use Rattle.std.specs.Prelude.{◌≤◌};

use commands::MOST_BYTES;
use fixing::MOST_WORDS;
use printing::MOST_PLACES;
use say_words::Command;
use std::io;
use std::rt::Env;

const MOST_DAY: u64 = 65535;

// What a command line asks for.
#[derive(Drop)]
enum Asked {
    Run(Command),
    Wrong,
}

// ---- from words to a command
// The number up to `bound` that argument `i` is; a missing one, and one that is too long, has no digits.
fn number(env: &impl Env, i: usize, bound: u64) -> Option<u64> {
    let mut digits = [0u8; 32];
    let n = inputs::argument(env, i, &mut digits);
    decimal::read_number(&digits[..n], bound)
}

// The word is argument `at`, and its numbers stand behind it.
fn check(env: &impl Env, at: usize) -> Asked
    requires { at ≤ 3 }
{
    let Some(w) = number(env, at + 1, 4294967295) else {
        return Asked::Wrong;
    };
    Asked::Run(Command::Check((w % 4294967296) as u32))
}

fn search(env: &impl Env, at: usize) -> Asked
    requires { at ≤ 3 }
{
    let Some(limit) = number(env, at + 1, 18446744073709551615) else {
        return Asked::Wrong;
    };
    let Some(places) = number(env, at + 2, MOST_PLACES as u64) else {
        return Asked::Wrong;
    };
    Asked::Run(Command::Search(limit, places as usize))
}

fn fixpoint(env: &impl Env, at: usize) -> Asked
    requires { at ≤ 3 }
{
    let Some(places) = number(env, at + 1, MOST_PLACES as u64) else {
        return Asked::Wrong;
    };
    let Some(capacity) = number(env, at + 2, MOST_WORDS as u64) else {
        return Asked::Wrong;
    };
    Asked::Run(Command::Fixpoint(places as usize, capacity as usize))
}

// The three parts of a clause, as words, and its two days.
fn clause(env: &impl Env, at: usize, keep: bool) -> Asked
    requires { at ≤ 3 }
{
    let Some(head) = number(env, at + 1, 4294967295) else {
        return Asked::Wrong;
    };
    let Some(body) = number(env, at + 2, 4294967295) else {
        return Asked::Wrong;
    };
    let Some(naf) = number(env, at + 3, 4294967295) else {
        return Asked::Wrong;
    };
    let Some(first) = number(env, at + 4, MOST_DAY) else {
        return Asked::Wrong;
    };
    let Some(last) = number(env, at + 5, MOST_DAY) else {
        return Asked::Wrong;
    };
    let h = (head % 4294967296) as u32;
    let b = (body % 4294967296) as u32;
    let n = (naf % 4294967296) as u32;
    let f = (first % 65536) as u16;
    let l = (last % 65536) as u16;
    if keep {
        return Asked::Run(Command::Keep(h, b, n, f, l));
    }
    Asked::Run(Command::Hold(h, b, n, f, l))
}

// A line for each word and the number of arguments up to the last that it takes.
fn understood(env: &impl Env, word: &[u8], at: usize, count: usize) -> Asked
    requires { at ≤ 3 }
{
    if lists::same_bytes(word, b"check") && count == at + 2 {
        return check(env, at);
    }
    if lists::same_bytes(word, b"search") && count == at + 3 {
        return search(env, at);
    }
    if lists::same_bytes(word, b"fixpoint") && count == at + 3 {
        return fixpoint(env, at);
    }
    if lists::same_bytes(word, b"summary") && count == at + 1 {
        return Asked::Run(Command::Summary);
    }
    if lists::same_bytes(word, b"write") && count == at + 1 {
        return Asked::Run(Command::Write);
    }
    if lists::same_bytes(word, b"hold") && count == at + 6 {
        return clause(env, at, false);
    }
    if lists::same_bytes(word, b"keep") && count == at + 6 {
        return clause(env, at, true);
    }
    Asked::Wrong
}

// ---- the book is read, and what the command prints is written
fn print(
    rt: &impl Print,
    day: u16,
    command: Command,
    book: &[u8],
    out: &mut [u8],
) -> io::Result<()> {
    let n = commands::run(book, day, command, &[], &[], out);
    rt.write_all(&out[..n])
}

fn serve(rt: &(impl Input + Print), day: u16, command: Command) -> io::Result<()> {
    let mut book = [0u8; 4097];
    let n = inputs::read_input(rt, &mut book)?;
    let mut out = [0u8; MOST_BYTES];
    print(rt, day, command, &book[..n], &mut out)
}

fn complain(rt: &impl Eprint) -> io::Result<()> {
    rt.eprintln(
        "usage: pstable [--day D] check WORD | search LIMIT PLACES | fixpoint PLACES CAPACITY | summary | write | hold HEAD BODY NOT FROM TO | keep HEAD BODY NOT FROM TO < BOOK",
    )
}

// The word is argument `at`.
fn obey(rt: &(impl Env + Input + Print + Eprint), day: u16, at: usize) -> io::Result<()>
    requires { at ≤ 3 }
{
    let mut word = [0u8; 16];
    let n = inputs::argument(rt, at, &mut word);
    let asked = understood(rt, &word[..n], at, inputs::argument_count(rt));
    match asked {
        Asked::Run(command) => serve(rt, day, command),
        Asked::Wrong => complain(rt),
    }
}

// The day stands in front of the word, and is 0 where it is not given.
fn main(rt: HostRuntime) -> io::Result<()> {
    let mut word = [0u8; 16];
    let n = inputs::argument(&rt, 1, &mut word);
    if lists::same_bytes(&word[..n], b"--day") {
        let day = number(&rt, 2, MOST_DAY);
        match day {
            Some(d) => obey(&rt, (d % 65536) as u16, 3),
            None => complain(&rt),
        }
    } else {
        obey(&rt, 0, 1)
    }
}
