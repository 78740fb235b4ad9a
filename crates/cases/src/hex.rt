// Bytes in hexadecimal, with repeats, and between | bytes that stand for themselves.
ghost use Rattle.std.specs.Prelude.{◌<◌, IfSome};

use std::alloc::{AllocError, Global};

// At most so many bytes are kept.
const MOST: usize = 70000;

// A byte that is to stand there as often as this, or more often, is not repeated.
const TOO_OFTEN: u32 = 1000000;

// The bytes that a line stands for.
pub fn read(alloc: Global, line: &[u8]) -> Result<Vec<u8>, AllocError> {
    let mut reader = Reader {
        bytes: Vec::new(alloc),
        state: State::Digits(None),
    };
    for letter in line {
        reader.read(*letter)?;
    }
    reader.repeat()?;
    Ok(reader.bytes)
}

// What the next letter is read as.
#[derive(Clone, Copy)]
enum State {
    // A digit of a byte, behind its first digit where that has been read.
    Digits(Option<u8>),
    // A digit of the count how often the last byte is to stand there in all.
    Repeat(u32),
    // A byte that stands for itself.
    Plain,
}

#[derive(Drop)]
struct Reader {
    bytes: Vec<u8>,
    state: State,
}

impl Reader {
    fn read(&mut self, letter: u8) -> Result<(), AllocError> {
        match self.state {
            State::Plain => self.read_plain(letter),
            State::Digits(first) => self.read_digit(first, letter),
            State::Repeat(times) => self.read_count(times, letter),
        }
    }

    // A byte that stands for itself, / for a line feed, or | for the end of such bytes.
    fn read_plain(&mut self, letter: u8) -> Result<(), AllocError> {
        match letter {
            b'|' => {
                self.state = State::Digits(None);
                Ok(())
            }
            b'/' => self.push(b'\n'),
            _ => self.push(letter),
        }
    }

    // A letter where no count is being read.
    fn read_digit(&mut self, first: Option<u8>, letter: u8) -> Result<(), AllocError> {
        match (first, digit(letter)) {
            (None, Some(value)) => self.state = State::Digits(Some(value)),
            (Some(first), Some(value)) => {
                self.state = State::Digits(None);
                self.push(first << 4 | value)?;
            }
            (_, None) => self.read_mark(letter),
        }
        Ok(())
    }

    // A letter where a count is being read.
    fn read_count(&mut self, times: u32, letter: u8) -> Result<(), AllocError> {
        if let Some(value) = digit(letter) {
            self.state = State::Repeat(counted(times, value));
        } else if letter == b'*' {
            self.state = State::Repeat(0);
        } else {
            self.repeat()?;
            self.state = State::Digits(None);
            self.read_mark(letter);
        }
        Ok(())
    }

    // A letter that is no digit: * begins a count, | bytes that stand for themselves.
    fn read_mark(&mut self, letter: u8) {
        match letter {
            b'*' => self.state = State::Repeat(0),
            b'|' => self.state = State::Plain,
            _ => {}
        }
    }

    // The end of a count: the last byte stands there so many times.
    fn repeat(&mut self) -> Result<(), AllocError> {
        let State::Repeat(times) = self.state else {
            return Ok(());
        };
        if times < TOO_OFTEN {
            let last = self.bytes.last().copied().unwrap_or(0);
            for _ in 1..times {
                self.push(last)?;
            }
        }
        Ok(())
    }

    // Keeps a byte where there is room.
    fn push(&mut self, byte: u8) -> Result<(), AllocError> {
        if self.bytes.len() < MOST {
            self.bytes.push(byte)?;
        }
        Ok(())
    }
}

// A count with one digit more, where it has few enough.
fn counted(times: u32, value: u8) -> u32 {
    if times < 100000 {
        times * 10 + u32::from(value)
    } else {
        times
    }
}

// The value of a digit.
fn digit(letter: u8) -> Option<u8>
    ensures { IfSome result (λ value. value < 16) }
{
    match letter {
        b'0'..=b'9' => Some(letter - b'0'),
        b'A'..=b'F' => Some(letter - b'A' + 10),
        _ => None,
    }
}
