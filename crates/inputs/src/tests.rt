// What no contract says: that a read that fails is an error, that a file comes whole or not at all, and which arguments there are.
use super::{argument, argument_count, read_file, read_full};
use std::env::FillError;
use std::io::{ErrorKind, Read};
use std::rt::Env;
use std::{fs, io};

// Gives a byte at a time, so many, and then ends or fails.
#[derive(Drop)]
struct Slow {
    left: u8,
    fails: bool,
}

impl Read for Slow {
    fn read(&mut self, buf: &mut [u8]) -> io::Result<usize> {
        if self.left == 0 && self.fails {
            return Err(io::Error::other("cut"));
        }
        if self.left == 0 || buf.is_empty() {
            return Ok(0);
        }
        buf[0] = self.left;
        self.left -= 1;
        Ok(1)
    }
}

#[test]
fn reads_to_the_end(rt: HostRuntime) -> io::Result<()> {
    let mut bytes = [9u8; 4];
    let mut reader = Slow {
        left: 3,
        fails: false,
    };
    assert_eq!(rt; read_full(&mut reader, &mut bytes)?, 3usize);
    assert_eq!(rt; bytes, [3u8, 2, 1, 9]);
    Ok(())
}

#[test]
fn stops_where_the_slice_is_full(rt: HostRuntime) -> io::Result<()> {
    let mut bytes = [9u8; 2];
    let mut reader = Slow {
        left: 2,
        fails: true,
    };
    assert_eq!(rt; read_full(&mut reader, &mut bytes)?, 2usize);
    assert_eq!(rt; bytes, [2u8, 1]);
    Ok(())
}

#[test]
fn a_failed_read_is_no_end(rt: HostRuntime) {
    let mut bytes = [9u8; 4];
    let mut reader = Slow {
        left: 3,
        fails: true,
    };
    match read_full(&mut reader, &mut bytes) {
        Ok(_) => panic!(rt; "an end"),
        Err(e) => assert!(rt; e.kind() == ErrorKind::Other),
    }
}

#[test]
fn reads_a_file(rt: HostRuntime) -> io::Result<()> {
    let mut bytes = [9u8; 4];
    fs::write(&rt, "inputs_book", "abc")?;
    let n = read_file(&rt, "inputs_book", &mut bytes)?;
    fs::remove_file(&rt, "inputs_book")?;
    assert_eq!(rt; n, 3usize);
    assert_eq!(rt; bytes, [97u8, 98, 99, 9]);
    match read_file(&rt, "inputs_book", &mut bytes) {
        Ok(_) => panic!(rt; "a file"),
        Err(e) => assert!(rt; e.kind() == ErrorKind::NotFound),
    }
    Ok(())
}

// The arguments "ab", "" and "c".
struct Three;

impl Env for Three {
    fn arg(&self, i: usize, buf: &mut [u8]) -> Result<usize, FillError> {
        if i == 1 {
            return Ok(0);
        }
        if 2 < i {
            return Err(FillError::NotPresent);
        }
        let text: &[u8] = if i == 0 { b"ab" } else { b"c" };
        if buf.len() < text.len() {
            return Err(FillError::TooLong);
        }
        let n = text.len();
        buf[..n].copy_from_slice(text);
        Ok(n)
    }

    fn var(&self, _name: &str, _buf: &mut [u8]) -> Result<usize, FillError> {
        Err(FillError::NotPresent)
    }

    fn var_at(&self, _i: usize, _buf: &mut [u8]) -> Result<usize, FillError> {
        Err(FillError::NotPresent)
    }
}

#[test]
fn takes_arguments(rt: HostRuntime) {
    let mut bytes = [9u8; 1];
    assert_eq!(rt; argument_count(&Three), 3usize);
    assert_eq!(rt; argument(&Three, 2, &mut bytes), 1usize);
    assert_eq!(rt; bytes, [99u8]);
    assert_eq!(rt; argument(&Three, 0, &mut bytes), 0usize);
    assert_eq!(rt; argument(&Three, 1, &mut bytes), 0usize);
    assert_eq!(rt; argument(&Three, 3, &mut bytes), 0usize);
}
