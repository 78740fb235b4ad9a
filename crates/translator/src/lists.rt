// Lists of pairs into a row of 64 cells, which puts them in rising order and shows which variables
// were given: the goal and prevail conditions.
ghost use Rattle.std.specs.Prelude.{◌≡◌, ◌<◌};
ghost use Rattle.translator.specs.Clauses.{same, number_by};
ghost use Rattle.translator.specs.Format.{cursor_at};
ghost use Rattle.translator.specs.ListContracts.{RowInside, is_new, VariableInside, VariableRead, value_below, PairInside, PairRead, ListRead};
ghost use Rattle.translator.specs.Reads.{cursor_of, read_of};

use crate::fields::{Separator, Text, judged};
use files::refusals::{Reason, Refusal};
use files::{bytes, decode, limits};

// Whether the row at `base` has no pair on a variable.
fn is_new(row: &[u8], base: usize, variable: usize) -> bool
    requires { RowInside row.now base }
    ensures { result ≡ is_new row.now base variable }
{
    limits::ROW <= variable || row[base + variable] == limits::NO_PAIR
}

// A variable of which neither row has a pair, and which is one of the task's.
pub fn variable(
    text: &mut Text,
    first: &[u8],
    second: &[u8],
    base: usize,
    variables: usize,
) -> Result<usize, Refusal>
    requires { VariableInside first.now second.now base variables }
    ensures kept { text.new.bytes ≡ text.old.bytes }
    ensures read { VariableRead text.old.bytes.now (cursor_at text.old.at) first.now second.now base variables (read_of result text.new.at) }
{
    let place = text.at;
    let variable = text.number(Separator::Blank)?;
    judged(is_new(first, base, variable), Reason::GivenTwice, place)?;
    judged(is_new(second, base, variable), Reason::GivenTwice, place)?;
    judged(variable < variables, Reason::OutOfRange, place)?;
    Ok(variable)
}

// A value below the size of its variable.
pub fn value(text: &mut Text, size: usize) -> Result<usize, Refusal>
    requires { size < 1048576 }
    ensures kept { text.new.bytes ≡ text.old.bytes }
    ensures read { read_of result text.new.at ≡ number_by (value_below size) same text.old.bytes.now (cursor_at text.old.at) }
{
    let place = text.at;
    let value = text.number(Separator::LineFeed)?;
    judged(value < size, Reason::OutOfRange, place)?;
    Ok(value)
}

// A pair, which is stored.
fn condition(text: &mut Text, sizes: &[u8], row: &mut [u8], base: usize) -> Result<(), Refusal>
    requires { PairInside sizes.now row.old base }
    ensures kept { text.new.bytes ≡ text.old.bytes }
    ensures read { PairRead text.old.bytes.now (cursor_at text.old.at) sizes.now row.old base (cursor_of result text.new.at) row.new }
{
    let given = variable(text, row, row, base, sizes.len())?;
    let stated = value(text, bytes::byte_at(sizes, given))?;
    decode::store(row, base, given, stated);
    Ok(())
}

// `count` pairs, in the row at `base`.
pub fn conditions(
    text: &mut Text,
    count: usize,
    sizes: &[u8],
    row: &mut [u8],
    base: usize,
) -> Result<(), Refusal>
    requires { PairInside sizes.now row.old base }
    ensures kept { text.new.bytes ≡ text.old.bytes }
    ensures read { ListRead text.old.bytes.now (cursor_at text.old.at) count sizes.now row.old base (cursor_of result text.new.at) row.new }
{
    decode::clear_row(row, base);
    for _ in 0..count {
        condition(text, sizes, row, base)?;
    }
    Ok(())
}
