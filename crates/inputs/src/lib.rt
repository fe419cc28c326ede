// What a program is given: the bytes of its standard input and of its files, and its arguments, each read into a slice that is lent for it.
#![tactic(auto)]

ghost use Rattle.std.specs.Prelude.{◌≡◌, ◌<◌, ◌≤◌, length, take, IfOk};
ghost use Rattle.std.specs.Io.{ReadsAtMost};
ghost use Rattle.std.specs.Io.KnownBytes.{Consumes, IsAtEnd};

use std::env::FillError;
use std::io::Read;
use std::rt::{Env, Files};
use std::{fs, io};

// ---- bytes
// Reads until the slice is full or the reader ends; how many bytes stand at its start. A read that fails is an error, and no end.
pub fn read_full<R: Read>(reader: &mut R, bytes: &mut [u8]) -> io::Result<usize>
    ensures within { ReadsAtMost result bytes.new }
    ensures read { IfOk result (λ n. Consumes (R.remaining reader.old) (R.remaining reader.new) (take n bytes.new)) }
    ensures whole { IfOk result (λ n. n < length bytes.new → IsAtEnd (R.remaining reader.new)) }
    ensures len { length bytes.new ≡ length bytes.old }
{
    let mut done: usize = 0;
    // A `while`: a read may give fewer bytes than there is room for.
    while done < bytes.len() {
        let n = reader.read(&mut bytes[done..])?;
        if n == 0 {
            break;
        }
        done += n;
    }
    Ok(done)
}

// The bytes of standard input at the start of the slice; their number.
pub fn read_input(input: &impl Input, bytes: &mut [u8]) -> io::Result<usize>
    ensures { ReadsAtMost result bytes.new }
{
    read_full(&mut input.reader(), bytes)
}

// The bytes of the file at `path` at the start of the slice; their number. An error names the path.
pub fn read_file(files: &impl Files, path: &str, bytes: &mut [u8]) -> io::Result<usize>
    ensures { ReadsAtMost result bytes.new }
{
    read_path(files, path, bytes).map_err(|e| io::Error::new(e.kind(), path))
}

fn read_path(files: &impl Files, path: &str, bytes: &mut [u8]) -> io::Result<usize>
    ensures { ReadsAtMost result bytes.new }
{
    let mut file = fs::open(files, path)?;
    read_full(&mut file, bytes)
}

// ---- arguments
// The bytes of argument `i` at the start of the slice; their number, 0 where it is missing or longer than the slice. Argument 0 is the program's name.
pub fn argument(env: &impl Env, i: usize, bytes: &mut [u8]) -> usize
    ensures { result ≤ length bytes.new }
{
    env.arg(i, bytes).unwrap_or(0)
}

// How many arguments there are, the program's name among them.
pub fn argument_count(env: &impl Env) -> usize {
    for i in 0..usize::MAX {
        if !has_argument(env, i) {
            return i;
        }
    }
    usize::MAX
}

// Whether there is an argument `i`: one with bytes is too long for a slice of none.
fn has_argument(env: &impl Env, i: usize) -> bool {
    !matches!(env.arg(i, &mut []), Err(FillError::NotPresent))
}

#[cfg(test)]
mod tests;
