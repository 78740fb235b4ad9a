// The bytes of a case, from which numbers and parts are taken in turn; numbers are little endian.
use crate::Stop;

#[derive(Clone, Copy)]
pub struct Bytes<'a>(pub &'a [u8]);

impl<'a> Bytes<'a> {
    pub fn number1(&mut self) -> Result<u8, Stop> {
        Ok(u8::from_le_bytes(self.array()?))
    }

    pub fn number2(&mut self) -> Result<u16, Stop> {
        Ok(u16::from_le_bytes(self.array()?))
    }

    pub fn number4(&mut self) -> Result<u32, Stop> {
        Ok(u32::from_le_bytes(self.array()?))
    }

    fn array<const N: usize>(&mut self) -> Result<[u8; N], Stop> {
        let (front, rest) = self.0.split_first_chunk().ok_or(Stop::NoCase)?;
        self.0 = rest;
        Ok(*front)
    }

    // So many bytes.
    pub fn part(&mut self, count: usize) -> Result<&'a [u8], Stop> {
        let (part, rest) = self.0.split_at_checked(count).ok_or(Stop::NoCase)?;
        self.0 = rest;
        Ok(part)
    }
}

// The first bytes, and 0 for those that are not there.
pub fn padded<const N: usize>(bytes: &[u8]) -> [u8; N] {
    let mut all = [0; N];
    for (to, from) in all.iter_mut().zip(bytes.iter()) {
        *to = *from;
    }
    all
}
