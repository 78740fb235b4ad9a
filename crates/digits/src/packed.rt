// The three digits of a number below 1,000, packed in one number: worked out, or looked up.
ghost use Rattle.std.specs.Prelude.{◌≡◌, ◌<◌};
ghost use Rattle.digits.specs.Groups.{DigitTable, packed_digits};

use crate::table;
use crate::table::Table;

pub(crate) trait Packed {
    // The hundreds times 256, plus the tens times 16, plus the units.
    fn packed(&self, n: usize) -> u16
        requires { n < 1000 }
        ensures { result ≡ packed_digits n };
}

// Worked out.
#[derive(Clone, Copy)]
pub(crate) struct Formula;

impl Packed for Formula {
    #[tactic(auto, unfolding(crate::specs::Groups::packed_digits))]
    fn packed(&self, n: usize) -> u16 {
        (n / 100 * 256 + n / 10 % 10 * 16 + n % 10) as u16
    }
}

// Looked up in a table that is lent.
#[derive(Drop)]
pub(crate) struct Lent<'a> {
    pub table: &'a Table,
    ghost digits: { DigitTable table.now },
}

impl Packed for Lent<'_> {
    fn packed(&self, n: usize) -> u16 {
        table::packed(self.table, n)
    }
}
