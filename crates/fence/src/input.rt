// What comes to the program from outside: the call that its arguments ask for, and the bytes of the files that they name. No contract can say
// what is read.
ghost use Rattle.std.specs.Prelude.{◌≤◌, IfSome, length};

use arguments::{Call, Seen};
use std::env::{Env, FillError};
use std::fmt::InlineText;
use std::fs::File;
use std::io::{Error, Read};
use std::os::fd::AsRawFd;
use streams::STDERR;

// Room for the longest query and one byte more: from there on it is too long, whatever follows.
pub const TEXT: usize = layout::LONGEST_QUERY + 1;

// Puts argument i at the start of the memory, and tells how many bytes it has, 0 for one that is longer than the memory; or there is no such
// argument.
pub fn argument(rt: HostRuntime, i: usize, word: &mut [u8]) -> Option<usize>
    ensures { IfSome result (λ n. n ≤ length word.new) }
{
    match rt.arg(i, word) {
        Ok(n) => Some(n),
        Err(FillError::TooLong) => Some(0),
        Err(FillError::NotPresent) => None,
    }
}

// What the arguments so far say, with argument i; or there is no such argument.
fn taken(rt: HostRuntime, seen: Seen, i: usize) -> Option<Seen> {
    let mut word = io::buffer();
    let n = argument(rt, i, &mut word)?;
    Some(arguments::take(seen, &word[..n], i))
}

// The call that the arguments ask for. From the eighth on they are not looked at: no call has so many, so that one of those before them
// does not fit.
pub fn call(rt: HostRuntime) -> Call {
    let mut seen = arguments::start();
    for i in 1..8 {
        let Some(more) = taken(rt, seen, i) else {
            return arguments::asked(seen);
        };
        seen = more;
    }
    arguments::asked(seen)
}

// The system's words for an error, without its number, which stands behind them.
fn words(text: &str) -> &str {
    match text.split_once(" (os error ") {
        Some((before, _)) => before,
        None => text,
    }
}

// Says on standard error that the file of this name cannot be read, and why.
fn fail(name: &[u8], why: &[u8]) {
    io::write_all(STDERR, name);
    io::write_all(STDERR, b": ");
    io::write_all(STDERR, why);
    io::write_all(STDERR, b"\n");
}

// The same in the system's words for an error.
fn fail_by(name: &[u8], why: Error) {
    let text = InlineText::<128>::of(why);
    fail(name, words(text.as_str()).as_bytes());
}

// The bytes that the stream still has, as many as fit, and how many; or none, where it could not be read, which is said on standard error: the next
// read tells whether it failed.
fn read_all<R: Read + AsRawFd>(from: &mut R, name: &[u8], to: &mut [u8]) -> Option<usize> {
    let n = io::read_full(from.as_raw_fd(), to);
    let mut next = [0u8; 1];
    if let Err(why) = from.read(&mut next) {
        fail_by(name, why);
        return None;
    }
    Some(n)
}

// The same of the file that has this name; `-` is standard input. A file whose name is not UTF-8 cannot be opened.
fn read_named(rt: HostRuntime, name: &[u8], to: &mut [u8]) -> Option<usize> {
    if texts::same(name, b"-") {
        return read_all(&mut rt.stdin(), name, to);
    }
    let Ok(path) = std::str::from_utf8(name) else {
        fail(name, b"the name is not UTF-8");
        return None;
    };
    match File::open(&rt, path) {
        Ok(mut file) => read_all(&mut file, name, to),
        Err(why) => {
            fail_by(name, why);
            None
        }
    }
}

// The same of the file that argument i names; 0 stands for standard input.
pub fn read(rt: HostRuntime, i: usize, to: &mut [u8]) -> Option<usize> {
    if i == 0 {
        return read_all(&mut rt.stdin(), b"-", to);
    }
    let mut name = io::buffer();
    let n = argument(rt, i, &mut name).unwrap_or(0);
    read_named(rt, &name[..n], to)
}
