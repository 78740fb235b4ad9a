// Files read whole.
ghost use Rattle.std.specs.Prelude.{◌≤◌, IfOk, length};
ghost use Rattle.std.specs.Io.{ReadsAtMost};

use crate::failure::Failure;
use crate::system;
use std::fs::File;
use std::io;
use std::io::{ErrorKind, Read};
use std::rt::Files;

// How much of a file is read: one byte more than it may have, so that a file over the limit is told from one at it.
pub const MOST: usize = files::limits::MOST_BYTES + 1;

// Reads a file, and of one that is longer than the buffer as much as fits; where the system refuses, it says why.
pub fn read<'a, 'b>(
    rt: &(impl Files + Eprint),
    name: &'a [u8],
    file: &'b mut [u8; MOST],
) -> Result<&'b [u8], Failure<'a>>
    ensures { IfOk result (λ bytes. length bytes.now ≤ 65537) }
{
    match read_file(rt, name, file) {
        Ok(length) => Ok(&file[..length]),
        Err(error) => Err(system::fail(rt, name, name, &error)),
    }
}

// The same where the system does not refuse: how much of the file is in the buffer.
fn read_file(rt: &impl Files, name: &[u8], file: &mut [u8]) -> io::Result<usize>
    ensures { ReadsAtMost result file.new }
{
    let mut source = File::open(rt, system::path(name)?)?;
    fill(&mut source, file)
}

// Reads until the buffer is full or the file ends.
fn fill(source: &mut impl Read, file: &mut [u8]) -> io::Result<usize>
    ensures { ReadsAtMost result file.new }
{
    let mut length: usize = 0;
    // a proved loop must end, and no file has so many pieces
    for _ in 0..u64::MAX {
        if length == file.len() {
            break;
        }
        match source.read(&mut file[length..]) {
            Ok(0) => break,
            Ok(count) => length += count,
            Err(error) if error.kind() == ErrorKind::Interrupted => {}
            Err(error) => return Err(error),
        }
    }
    Ok(length)
}
