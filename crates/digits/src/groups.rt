// The digits of a number in groups of three, from the right.
ghost use Rattle.std.specs.Prelude.{◌≡◌, ◌++◌, ◌<◌, length, drop};
ghost use Rattle.std.proofs.lemmas.List.Edits.{sets};
ghost use Rattle.digits.specs.Clauses.{ColumnFits, Counts, FrontFits, ThreeFit, DigitsFit};
ghost use Rattle.digits.specs.Decimal.{column, decimal as Decimal·decimal};
ghost use Rattle.digits.specs.Groups.{three};

use crate::columns;
use crate::packed::Packed;

// Writes a number below 1,000 as three digits.
fn put_three(buffer: &mut [u8], at: usize, n: usize, digits: &impl Packed)
    requires { ThreeFit buffer.old at n }
    ensures { buffer.new ≡ sets buffer.old at (three n) }
{
    let digits = digits.packed(n);
    buffer[at] = (48 + digits / 256) as u8;
    buffer[at + 1] = (48 + digits / 16 % 16) as u8;
    buffer[at + 2] = (48 + digits % 16) as u8;
}

// Writes a number below 1,000 without leading zeros.
fn put_front(buffer: &mut [u8], at: usize, n: usize, digits: &impl Packed)
    requires { FrontFits buffer.old at n }
    ensures { buffer.new ≡ sets buffer.old at (Decimal·decimal n) }
{
    if 99 < n {
        put_three(buffer, at, n, digits);
        return;
    }
    let digits = digits.packed(n);
    if 9 < n {
        buffer[at] = (48 + digits / 16) as u8;
        buffer[at + 1] = (48 + digits % 16) as u8;
        return;
    }
    buffer[at] = (48 + digits) as u8;
}

// How many digits a number below 1,000 has.
fn front_places(n: u64) -> usize
    requires { n < 1000 }
    ensures { result ≡ length (Decimal·decimal n) }
{
    if n < 10 {
        return 1;
    }
    if n < 100 {
        return 2;
    }
    3
}

// How many digits a number has.
fn places(n: u64) -> usize
    ensures { result ≡ length (Decimal·decimal n) }
{
    let mut count: usize = 0;
    let mut rest = n;
    // Kept: a `while` is plainer, since each turn divides, and no index is counted.
    while 999 < rest {
        rest /= 1000;
        count += 3;
    }
    count + front_places(rest)
}

// Writes the digits of a number, `count` of them, from `at` on.
fn put_digits(buffer: &mut [u8], at: usize, count: usize, n: u64, digits: &impl Packed)
    requires { DigitsFit buffer.old at count n }
    ensures { buffer.new ≡ sets buffer.old at (Decimal·decimal n) }
{
    let mut end = at + count;
    let mut rest = n;
    // Kept: a `while` is plainer, since each turn divides, and no index is counted.
    while 999 < rest {
        end -= 3;
        put_three(buffer, end, (rest % 1000) as usize, digits);
        rest /= 1000;
    }
    put_front(buffer, at, rest as usize, digits);
}

// Puts the decimal digits of n at the start of `out`, and answers how many there are.
pub fn decimal(n: u64, out: &mut [u8; 20], digits: &impl Packed) -> usize
    ensures counts { Counts result out.new }
    ensures value { result ≡ length (Decimal·decimal n) }
    ensures out_after { out.new ≡ Decimal·decimal n ++ drop result out.old }
{
    let count = places(n);
    put_digits(out, 0, count, n, digits);
    count
}

// Writes a number flush right in a column of so many bytes from `at` on.
#[inline]
pub fn put_column(buffer: &mut [u8], at: usize, width: usize, n: u64, digits: &impl Packed)
    requires { ColumnFits buffer.old at width n }
    ensures { buffer.new ≡ sets buffer.old at (column width n) }
{
    let count = places(n);
    let blanks = width - count;
    columns::put_blanks(buffer, at, blanks);
    put_digits(buffer, at + blanks, count, n, digits);
}
