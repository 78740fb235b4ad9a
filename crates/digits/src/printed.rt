// Numbers in decimal, as values that print.
use std::fmt;

// A number that prints in decimal, by the digits of this crate.
#[derive(Clone, Copy, Debug, PartialEq, Eq)]
pub struct Decimal(pub u64);

impl fmt::Display for Decimal {
    fn fmt<W: fmt::Write>(&self, f: &mut fmt::Formatter<W>) -> fmt::Result {
        let mut text = [0u8; 20];
        let count = crate::decimal(self.0, &mut text);
        for digit in &text[..count] {
            f.write_char(char::from(*digit))?;
        }
        Ok(())
    }
}
