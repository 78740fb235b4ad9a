// Numbers as text: decimal digits, worked out by threes.
// The call open to callers is decimal; the module columns serves crates that lay out text, and printed
// those that print. The modules table and lent do the same by a table of digits, which whoever prints many numbers takes
// once and lends.
#![tactic(auto)]

pub mod columns;
mod groups;
pub mod lent;
mod packed;
pub mod printed;
pub mod table;

ghost use Rattle.std.specs.Prelude.{◌≡◌, ◌++◌, length, drop};
ghost use Rattle.digits.specs.Clauses.{Counts};
ghost use Rattle.digits.specs.Decimal.{decimal as Decimal·decimal};

use packed::Formula;

// Puts the decimal digits of n at the start of `out`, and answers how many there are.
pub fn decimal(n: u64, out: &mut [u8; 20]) -> usize
    ensures counts { Counts result out.new }
    ensures value { result ≡ length (Decimal·decimal n) }
    ensures out_after { out.new ≡ Decimal·decimal n ++ drop result out.old }
{
    groups::decimal(n, out, &Formula)
}
