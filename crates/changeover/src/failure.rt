// What ends a command that is not done, and what ends the program.
use crate::command::Usage;
use digits::printed::Decimal;
use files::refusals::Refusal;
use std::io;
use std::io::Write;

// The program ends before its input does: standard output has refused some bytes.
#[derive(Clone, Copy, Debug)]
pub struct Stop;

impl From<io::Error> for Stop {
    fn from(_error: io::Error) -> Stop {
        Stop
    }
}

// How a command ends that is not done.
#[derive(Clone, Copy)]
pub enum Failure<'a> {
    // Its words are not those that it takes.
    Words(Usage),
    // The system refuses the file of this name, whose bytes need not be text; why stands on standard error.
    File(&'a [u8]),
    // The call is refused; the name is that of the second file.
    Refused(Refusal, &'a [u8]),
    Stop(Stop),
}

impl<'a> From<Refusal> for Failure<'a> {
    fn from(refusal: Refusal) -> Failure<'a> {
        Failure::Refused(refusal, b"")
    }
}

impl<'a> From<io::Error> for Failure<'a> {
    fn from(error: io::Error) -> Failure<'a> {
        Failure::Stop(Stop::from(error))
    }
}

impl Failure<'_> {
    // Prints the last line of the command, unless the program ends.
    pub fn print(self, out: &mut impl Write) -> Result<(), Stop> {
        match self {
            Failure::Words(usage) => writeln!(out, "{usage}")?,
            Failure::File(name) => {
                out.write_all(b"failed ")?;
                out.write_all(name)?;
                out.write_all(b"\n")?;
            }
            Failure::Refused(refusal, second) => {
                let number = Decimal(u64::from(refusal.reason.number()));
                let place = Decimal(refusal.place as u64);
                write!(out, "refused {number} at {place}")?;
                if refusal.in_second {
                    out.write_all(b" in ")?;
                    out.write_all(second)?;
                }
                out.write_all(b"\n")?;
            }
            Failure::Stop(stop) => return Err(stop),
        }
        Ok(())
    }
}
