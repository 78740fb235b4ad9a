// Standard input, as much of it as serves.
ghost use Rattle.std.specs.Io.{ReadsAtMost};

use files::limits;
use std::io;
use std::io::{ErrorKind, Read};

// One byte more than a file may have, so that a file over the limit is told from one at it.
pub const MOST: usize = limits::MOST_BYTES + 1;

// Reads until the buffer is full or the input ends, and answers how much was read.
pub fn read_full(source: &mut impl Read, buffer: &mut [u8]) -> io::Result<usize>
    ensures { ReadsAtMost result buffer.new }
{
    let mut length: usize = 0;
    // a proved loop must end, and no input has so many pieces
    for _ in 0..u64::MAX {
        if length == buffer.len() {
            break;
        }
        match source.read(&mut buffer[length..]) {
            Ok(0) => break,
            Ok(count) => length += count,
            Err(error) if error.kind() == ErrorKind::Interrupted => {}
            Err(error) => return Err(error),
        }
    }
    Ok(length)
}
