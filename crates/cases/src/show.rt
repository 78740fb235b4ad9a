// What is printed of an answer.
use files::refusals::Refusal;
use std::fmt;

// How a call ended: the number, the file and the place of its refusal, 0 where it is done.
#[derive(Clone, Copy)]
pub struct Ended(pub Option<Refusal>);

impl fmt::Display for Ended {
    fn fmt<W: fmt::Write>(&self, f: &mut fmt::Formatter<W>) -> fmt::Result {
        match self.0 {
            None => write!(f, "0 0 0"),
            Some(refusal) => {
                let number = refusal.reason.number();
                let file = u8::from(refusal.in_second);
                write!(f, "{number} {file} {}", refusal.place)
            }
        }
    }
}

// The turns behind a blank, unless there are none: all levels but 5.
#[derive(Clone, Copy)]
pub struct Turns(pub usize);

impl fmt::Display for Turns {
    fn fmt<W: fmt::Write>(&self, f: &mut fmt::Formatter<W>) -> fmt::Result {
        match self.0 {
            0 => Ok(()),
            turns => write!(f, " turns {turns}"),
        }
    }
}

// Marks, a digit each.
#[derive(Clone, Copy)]
pub struct Marks<'a>(pub &'a [u8]);

impl fmt::Display for Marks<'_> {
    fn fmt<W: fmt::Write>(&self, f: &mut fmt::Formatter<W>) -> fmt::Result {
        for mark in self.0 {
            write!(f, "{}", mark % 10)?;
        }
        Ok(())
    }
}

// Bytes in hexadecimal, two digits each.
#[derive(Clone, Copy)]
pub struct Hex<'a>(pub &'a [u8]);

impl fmt::Display for Hex<'_> {
    fn fmt<W: fmt::Write>(&self, f: &mut fmt::Formatter<W>) -> fmt::Result {
        for byte in self.0 {
            write!(f, "{byte:02X}")?;
        }
        Ok(())
    }
}

// How many bytes at the front are as they were lent.
pub fn untouched(buffer: &[u8]) -> usize {
    buffer
        .iter()
        .take_while(|byte| **byte == crate::buffers::BEFORE)
        .count()
}
