// The report program: reads a book from standard input, and writes the whole report from one buffer.
#![tactic(auto)]

use commands::MOST_BYTES;
use std::io;

fn print_report(rt: &impl Print, book: &[u8], out: &mut [u8]) -> io::Result<()> {
    let n = commands::report(book, out);
    rt.write_all(&out[..n])
}

fn main(rt: HostRuntime) -> io::Result<()> {
    let mut book = [0u8; 4097];
    let n = inputs::read_input(&rt, &mut book)?;
    let mut out = [0u8; MOST_BYTES];
    print_report(&rt, &book[..n], &mut out)
}
