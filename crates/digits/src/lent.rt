// Decimal digits by a table that the caller lends: for whoever prints many numbers.
ghost use Rattle.std.specs.Prelude.{◌≡◌, ◌++◌, length, drop};
ghost use Rattle.std.proofs.lemmas.List.Edits.{sets};
ghost use Rattle.digits.specs.Clauses.{ColumnFits, Counts};
ghost use Rattle.digits.specs.Decimal.{column, decimal as Decimal·decimal};
ghost use Rattle.digits.specs.Groups.{DigitTable};

use crate::groups;
use crate::packed::Lent;
use crate::table::Table;

// Puts the decimal digits of n at the start of `out`, and answers how many there are.
pub fn decimal(n: u64, out: &mut [u8; 20], table: &Table) -> usize
    requires { DigitTable table.now }
    ensures counts { Counts result out.new }
    ensures value { result ≡ length (Decimal·decimal n) }
    ensures out_after { out.new ≡ Decimal·decimal n ++ drop result out.old }
{
    groups::decimal(n, out, &Lent { table })
}

// Writes a number flush right in a column of so many bytes from `at` on.
pub fn put_column(buffer: &mut [u8], at: usize, width: usize, n: u64, table: &Table)
    requires digit_table { DigitTable table.now }
    requires column_fits { ColumnFits buffer.old at width n }
    ensures { buffer.new ≡ sets buffer.old at (column width n) }
{
    groups::put_column(buffer, at, width, n, &Lent { table });
}
