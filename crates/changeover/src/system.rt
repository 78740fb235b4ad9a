// What the system takes and what it says: names as paths, and why it refuses.
use crate::failure::Failure;
use std::io::{Cursor, Write};
use std::{fmt, io};

// The system's numbers for a name with a byte 0 and for one that is no text.
const INVALID: i32 = 22;

const NO_TEXT: i32 = 84;

// A name as a path, which is text.
pub fn path(name: &[u8]) -> io::Result<&str> {
    if name.contains(&0) {
        return Err(io::Error::from_raw_os_error(INVALID));
    }
    str::from_utf8(name).map_err(|_| io::Error::from_raw_os_error(NO_TEXT))
}

// The failure of a command whose file has a name, and a line on standard error: the path that the system refuses, a
// colon and why.
pub fn fail<'a>(rt: &impl Eprint, name: &'a [u8], path: &[u8], error: &io::Error) -> Failure<'a> {
    let mut space = [0u8; 128];
    say(rt, path, reason(error, &mut space));
    Failure::File(name)
}

// The system's words for an error, without the number that stands behind them.
fn reason<'a>(error: &io::Error, space: &'a mut [u8]) -> &'a str {
    let mut words = Cursor::new(&mut *space);
    let _ = write!(words, "{error}");
    let length = words.position() as usize;
    let said = match space.get(..length) {
        Some(said) => str::from_utf8(said).unwrap_or(""),
        None => "",
    };
    match said.split_once(" (os error ") {
        Some((reason, _)) => reason,
        None => said,
    }
}

// Writes a line to standard error: the name, a colon and a text.
pub fn say(rt: &impl Eprint, name: &[u8], text: &str) {
    let _ = eprintln!(rt; "{}: {text}", Escaped(name));
}

// A name as text; of one that is none the bytes are escaped.
#[derive(Clone, Copy)]
struct Escaped<'a>(&'a [u8]);

impl fmt::Display for Escaped<'_> {
    fn fmt<W: fmt::Write>(&self, f: &mut fmt::Formatter<W>) -> fmt::Result {
        match str::from_utf8(self.0) {
            Ok(name) => f.write_str(name),
            Err(_) => write!(f, "{}", self.0.escape_ascii()),
        }
    }
}
