// Numbers as text, and the table of digits.
use crate::bytes::padded;
use crate::{Stop, buffers, show};
use std::io::Write;

// Prints a number of eight bytes in decimal, how many digits that are, and how many bytes behind them
// are as they were.
pub fn decimal(out: &mut impl Write, bytes: &[u8]) -> Result<(), Stop> {
    let number = u64::from_le_bytes(padded(bytes));
    let mut text = [buffers::BEFORE; 20];
    let table = digits::table::whole();
    let count = digits::lent::decimal(number, &mut text, &table);
    let (digits, behind) = text.split_at(count);
    out.write_all(digits)?;
    write!(out, " {count} {}", show::untouched(behind))?;
    Ok(())
}

// Prints the entry of the table of digits at a place of two bytes.
pub fn entry(out: &mut impl Write, bytes: &[u8]) -> Result<(), Stop> {
    let place = u16::from_le_bytes(padded(bytes));
    let table = digits::table::whole();
    if let Some(entry) = table.get(usize::from(place)) {
        write!(out, "{entry}")?;
    }
    Ok(())
}
