// Runs the cases of its standard input, a line each, and prints a line for each. A line that
// begins with # is printed as it stands; in any other the first letter says what is called, and
// bytes in hexadecimal follow, of which XX*N stands for N times XX. Behind a | bytes stand for
// themselves and / for a line feed, up to the next | or the end of the line.
#![tactic(auto)]

mod buffers;
mod bytes;
mod calls;
mod hex;
mod numbers;
mod planner;
mod reduced;
mod show;
mod single;

use calls::Call;
use std::alloc::{AllocError, Global};
use std::io;
use std::io::{BufWriter, Read, Write};

// At most so many bytes of the input are read.
const MOST: u64 = 655360;

fn main(rt: HostRuntime) -> io::Result<()> {
    let mut text = Vec::new(rt.alloc());
    rt.reader().take(MOST).read_to_end(&mut text)?;
    let mut out = BufWriter::new(rt.alloc(), io::writer(&rt))?;
    match run(rt.alloc(), &mut out, text.as_slice()) {
        Ok(()) => Ok(()),
        Err(error) => {
            // nothing more is printed, not even what waits
            let _ = out.into_parts();
            Err(error)
        }
    }
}

// Runs every line.
fn run(alloc: Global, out: &mut impl Write, text: &[u8]) -> io::Result<()> {
    for line in text.split_inclusive(|byte| *byte == b'\n') {
        run_line(alloc, out, line.strip_suffix(b"\n").unwrap_or(line))?;
        out.write_all(b"\n")?;
    }
    out.flush()
}

// Prints a comment as it stands, or what a case's call answers; nothing where the line is no case.
fn run_line(alloc: Global, out: &mut impl Write, line: &[u8]) -> io::Result<()> {
    match line {
        [] => Ok(()),
        [b'#', ..] => out.write_all(line),
        [letter, ..] => match run_case(alloc, out, *letter, line) {
            Ok(()) | Err(Stop::NoCase) => Ok(()),
            Err(Stop::Output(error)) => Err(error),
        },
    }
}

fn run_case(alloc: Global, out: &mut impl Write, letter: u8, line: &[u8]) -> Result<(), Stop> {
    let call = Call::try_from(letter)?;
    let bytes = hex::read(alloc, line)?;
    call.run(alloc, out, bytes.as_slice())
}

// Why a case prints nothing more.
#[derive(Debug, Drop)]
pub enum Stop {
    // The line is none: its letter names no call, its bytes are too few, or a buffer would be too long.
    NoCase,
    // No more can be written, or there is no memory.
    Output(io::Error),
}

impl From<io::Error> for Stop {
    fn from(error: io::Error) -> Stop {
        Stop::Output(error)
    }
}

impl From<AllocError> for Stop {
    fn from(error: AllocError) -> Stop {
        Stop::Output(io::Error::from(error))
    }
}
