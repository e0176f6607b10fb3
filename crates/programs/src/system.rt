// What the system gives and takes: the arguments, files by their names, and what is said on standard error.
// No contract can say what a file holds or a terminal takes. Names are bytes, as the system has them; a name
// that is no text is refused.
ghost use Rattle.std.specs.Prelude.{◌≤◌, length};

use std::env::{Env, FillError};
use std::fs::File;
use std::io::{Error, ErrorKind, Print};
use std::rt::HostRuntime;

// How many arguments the program was started with, its own name among them.
pub fn arg_count(rt: &HostRuntime) -> usize {
    let mut byte = [0u8; 1];
    for i in 0..usize::MAX {
        if let Err(FillError::NotPresent) = rt.arg(i, &mut byte) {
            return i;
        }
    }
    usize::MAX
}

// Puts an argument at the start of the buffer; answers its length, or 0 where it is missing or longer
// than the buffer.
pub fn arg(rt: &HostRuntime, i: usize, buf: &mut [u8]) -> usize
    ensures { result ≤ length buf.new }
{
    match rt.arg(i, buf) {
        Ok(n) => n,
        Err(_) => 0,
    }
}

// Writes bytes to standard error. Where it takes none, there is nobody left to tell.
pub fn complain(rt: &HostRuntime, message: &[u8]) {
    let _taken = rt.stderr().write_all(message);
}

// Says on standard error what failed, and why, in the system's words.
pub fn fail(rt: &HostRuntime, what: &[u8], error: Error) {
    complain(rt, what);
    complain(rt, b": ");
    if let Ok(text) = format!(in rt.alloc(); "{error}") {
        let words = text.as_str();
        let end = words.find(" (os error ").unwrap_or(words.len());
        complain(rt, words.as_bytes().get(..end).unwrap_or(words.as_bytes()));
    }
    complain(rt, b"\n");
}

// A name as text.
fn path(name: &[u8]) -> Result<&str, Error> {
    match std::str::from_utf8(name) {
        Ok(text) => Ok(text),
        Err(_) => Err(Error::from(ErrorKind::InvalidInput)),
    }
}

// Opens the file of this name to be read.
pub fn open(rt: &HostRuntime, name: &[u8]) -> Result<File, Error> {
    File::open(rt, path(name)?)
}

// Opens the file of this name to be written from its start, and makes it where there is none.
pub fn create(rt: &HostRuntime, name: &[u8]) -> Result<File, Error> {
    File::create(rt, path(name)?)
}
