// The variables of a text: their declarations, of which the domain sizes are stored, and their start
// values.
ghost use Rattle.std.specs.Prelude.{◌≡◌};
ghost use Rattle.translator.specs.Clauses.{same, number_by};
ghost use Rattle.translator.specs.VariableContracts.{size_of, layer_after, VariablesInside, DeclarationsRead, StartsInside, StartsRead};
ghost use Rattle.translator.specs.Format.{cursor_at, cursor_after};
ghost use Rattle.translator.specs.Reads.{cursor_of, read_of};
ghost use Rattle.translator.specs.Text.{name_lines, size, declaration};

use crate::fields::{Separator, Text, judged};
use crate::lists;
use files::limits;
use files::refusals::{Reason, Refusal};

// A domain size.
fn size(text: &mut Text) -> Result<usize, Refusal>
    ensures kept { text.new.bytes ≡ text.old.bytes }
    ensures read { read_of result text.new.at ≡ number_by size same text.old.bytes.now (cursor_at text.old.at) }
{
    let place = text.at;
    let size = text.number(Separator::LineFeed)?;
    judged(1 <= size, Reason::OutsideLimits, place)?;
    judged(size <= limits::MOST_VALUES, Reason::OutsideLimits, place)?;
    Ok(size)
}

// The names of `count` values.
fn names(text: &mut Text, count: usize) -> Result<(), Refusal>
    ensures kept { text.new.bytes ≡ text.old.bytes }
    ensures read { cursor_of result text.new.at ≡ cursor_after (name_lines count) text.old.bytes.now (cursor_at text.old.at) }
{
    for _ in 0..count {
        text.name()?;
    }
    Ok(())
}

// An axiom layer, which is to be -1.
fn layer(text: &mut Text) -> Result<(), Refusal>
    ensures kept { text.new.bytes ≡ text.old.bytes }
    ensures read { cursor_of result text.new.at ≡ layer_after text.old.bytes.now (cursor_at text.old.at) }
{
    let place = text.at;
    let layer = text.signed(Separator::LineFeed)?;
    judged(layer.is_none(), Reason::Unsupported, place)
}

// The declaration of a variable: its domain size.
fn declaration(text: &mut Text) -> Result<usize, Refusal>
    ensures kept { text.new.bytes ≡ text.old.bytes }
    ensures read { read_of result text.new.at ≡ number_by declaration size_of text.old.bytes.now (cursor_at text.old.at) }
{
    text.word(b"begin_variable\n")?;
    text.name()?;
    layer(text)?;
    let size = size(text)?;
    names(text, size)?;
    text.word(b"end_variable\n")?;
    Ok(size)
}

// The declarations of `count` variables, and their domain sizes in order.
pub fn declarations(text: &mut Text, count: usize, sizes: &mut [u8]) -> Result<(), Refusal>
    requires { VariablesInside count sizes.old }
    ensures kept { text.new.bytes ≡ text.old.bytes }
    ensures read { DeclarationsRead text.old.bytes.now (cursor_at text.old.at) count sizes.old (cursor_of result text.new.at) sizes.new }
{
    for v in 0..count {
        let size = declaration(text)?;
        // Kept: a remainder, since `stored_sizes` says so of every number.
        sizes[v] = (size % 256) as u8;
    }
    Ok(())
}

// The start values of `count` variables.
pub fn starts(text: &mut Text, count: usize, sizes: &[u8], starts: &mut [u8]) -> Result<(), Refusal>
    requires { StartsInside count sizes.now starts.old }
    ensures kept { text.new.bytes ≡ text.old.bytes }
    ensures read { StartsRead text.old.bytes.now (cursor_at text.old.at) count sizes.now starts.old (cursor_of result text.new.at) starts.new }
{
    for v in 0..count {
        let start = lists::value(text, usize::from(sizes[v]))?;
        // Kept: a remainder, since `stored_starts` says so of every number.
        starts[v] = (start % 256) as u8;
    }
    Ok(())
}
