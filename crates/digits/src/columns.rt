// Numbers flush right in columns.
ghost use Rattle.std.specs.Prelude.{◌≡◌, ◌+◌, ◌≤◌, length, replicate};
ghost use Rattle.std.proofs.lemmas.List.Edits.{sets};
ghost use Rattle.digits.specs.Clauses.{ColumnFits};
ghost use Rattle.digits.specs.Decimal.{column};

use crate::groups;
use crate::packed::Formula;

// Writes `count` blanks from `at` on.
pub fn put_blanks(buffer: &mut [u8], at: usize, count: usize)
    requires { at + count ≤ length buffer.old }
    ensures { buffer.new ≡ sets buffer.old at (replicate count 32) }
{
    buffer[at..at + count].fill(b' ');
}

// Writes a number flush right in a column of so many bytes from `at` on.
#[inline]
pub fn put_column(buffer: &mut [u8], at: usize, width: usize, n: u64)
    requires { ColumnFits buffer.old at width n }
    ensures { buffer.new ≡ sets buffer.old at (column width n) }
{
    groups::put_column(buffer, at, width, n, &Formula);
}
