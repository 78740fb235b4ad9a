// Mutex groups: read for form alone.
ghost use Rattle.std.specs.Prelude.{◌≡◌};
ghost use Rattle.translator.specs.VariableContracts.{groups_after};
ghost use Rattle.translator.specs.Format.{cursor_at, cursor_after};
ghost use Rattle.translator.specs.Reads.{cursor_of};
ghost use Rattle.translator.specs.Sas.{line_feed};
ghost use Rattle.translator.specs.Text.{each, free_pair, group};

use crate::fields::{Separator, Text};
use files::refusals::Refusal;

// A pair that nothing refuses.
fn pair(text: &mut Text) -> Result<(), Refusal>
    ensures kept { text.new.bytes ≡ text.old.bytes }
    ensures read { cursor_of result text.new.at ≡ cursor_after (free_pair line_feed) text.old.bytes.now (cursor_at text.old.at) }
{
    text.number(Separator::Blank)?;
    text.number(Separator::LineFeed)?;
    Ok(())
}

// `count` pairs.
// Kept: two loops of one form, here and in `groups_of`: a closure for what is repeated would be longer.
fn pairs(text: &mut Text, count: usize) -> Result<(), Refusal>
    ensures kept { text.new.bytes ≡ text.old.bytes }
    ensures read { cursor_of result text.new.at ≡ cursor_after (each (free_pair line_feed) count) text.old.bytes.now (cursor_at text.old.at) }
{
    for _ in 0..count {
        pair(text)?;
    }
    Ok(())
}

// A group. More pairs than the text has bytes are refused where it ends, however many they are.
fn group(text: &mut Text) -> Result<(), Refusal>
    ensures kept { text.new.bytes ≡ text.old.bytes }
    ensures read { cursor_of result text.new.at ≡ cursor_after group text.old.bytes.now (cursor_at text.old.at) }
{
    text.word(b"begin_mutex_group\n")?;
    let count = text.number(Separator::LineFeed)?;
    pairs(text, count)?;
    text.word(b"end_mutex_group\n")
}

// `count` groups.
fn groups_of(text: &mut Text, count: usize) -> Result<(), Refusal>
    ensures kept { text.new.bytes ≡ text.old.bytes }
    ensures read { cursor_of result text.new.at ≡ cursor_after (each group count) text.old.bytes.now (cursor_at text.old.at) }
{
    for _ in 0..count {
        group(text)?;
    }
    Ok(())
}

// The count of groups, and the groups.
pub fn groups(text: &mut Text) -> Result<(), Refusal>
    ensures kept { text.new.bytes ≡ text.old.bytes }
    ensures read { cursor_of result text.new.at ≡ groups_after text.old.bytes.now (cursor_at text.old.at) }
{
    let count = text.number(Separator::LineFeed)?;
    groups_of(text, count)
}
