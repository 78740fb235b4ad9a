// Operators: their costs, and their conditions and effects in rows of 64 cells.
ghost use Rattle.std.specs.Prelude.{◌≡◌, ◌≤◌, ◌<◌, take};
ghost use Rattle.files.specs.Below.{bit};
ghost use Rattle.translator.specs.Clauses.{coded, number_by};
ghost use Rattle.translator.specs.Format.{cursor_at};
ghost use Rattle.translator.specs.ListContracts.{RowInside};
ghost use Rattle.translator.specs.OperatorContracts.{plain_after, old_below, stored_option, EffectInside, EffectRead, EffectsRead, cost_by, OperatorRead, OperatorsRead, RowsOnly};
ghost use Rattle.translator.specs.Reads.{cursor_of, read_of, coded_of, ToldRead};
ghost use Rattle.translator.specs.Text.{count};

use crate::fields::{Separator, Text, judged};
use crate::lists;
use files::arrays::Arrays;
use files::refusals::{Reason, Refusal};
use files::{bytes, decode, limits};

// The count of an effect's conditions, which is to be 0.
fn plain(text: &mut Text) -> Result<(), Refusal>
    ensures kept { text.new.bytes ≡ text.old.bytes }
    ensures read { cursor_of result text.new.at ≡ plain_after text.old.bytes.now (cursor_at text.old.at) }
{
    let place = text.at;
    let count = text.number(Separator::Blank)?;
    judged(count == 0, Reason::Unsupported, place)
}

// An old value of a variable, or none.
fn old(text: &mut Text, size: usize) -> Result<Option<usize>, Refusal>
    requires { size < 1048576 }
    ensures kept { text.new.bytes ≡ text.old.bytes }
    ensures told { ToldRead result }
    ensures read { coded_of result text.new.at ≡ number_by (old_below size) coded text.old.bytes.now (cursor_at text.old.at) }
{
    let place = text.at;
    let old = text.signed(Separator::Blank)?;
    if let Some(value) = old {
        judged(value < size, Reason::OutOfRange, place)?;
    }
    Ok(old)
}

// Stores an old value, where there is one, as a condition.
fn store_old(row: &mut [u8], base: usize, variable: usize, old: Option<usize>)
    requires { RowInside row.old base }
    ensures { row.new ≡ stored_option row.old base variable old }
{
    if let Some(value) = old {
        decode::store(row, base, variable, value);
    }
}

// An effect: its old value is stored as a condition, its new value as an effect.
fn effect(
    text: &mut Text,
    sizes: &[u8],
    conditions: &mut [u8],
    effects: &mut [u8],
    base: usize,
) -> Result<(), Refusal>
    requires { EffectInside sizes.now conditions.old effects.old base }
    ensures kept { text.new.bytes ≡ text.old.bytes }
    ensures read { EffectRead text.old.bytes.now (cursor_at text.old.at) sizes.now conditions.old effects.old base (cursor_of result text.new.at) conditions.new effects.new }
{
    plain(text)?;
    let given = lists::variable(text, conditions, effects, base, sizes.len())?;
    let size = bytes::byte_at(sizes, given);
    let before = old(text, size)?;
    let new = lists::value(text, size)?;
    store_old(conditions, base, given, before);
    decode::store(effects, base, given, new);
    Ok(())
}

// `count` effects.
fn effects_of(
    text: &mut Text,
    count: usize,
    sizes: &[u8],
    conditions: &mut [u8],
    effects: &mut [u8],
    base: usize,
) -> Result<(), Refusal>
    requires { EffectInside sizes.now conditions.old effects.old base }
    ensures kept { text.new.bytes ≡ text.old.bytes }
    ensures read { EffectsRead text.old.bytes.now (cursor_at text.old.at) count sizes.now conditions.old effects.old base (cursor_of result text.new.at) conditions.new effects.new }
{
    decode::clear_row(effects, base);
    for _ in 0..count {
        effect(text, sizes, conditions, effects, base)?;
    }
    Ok(())
}

// What an operator costs: as written, or 1 where the metric is 0.
fn cost_by(metric: bool, written: usize) -> usize
    ensures { result ≡ cost_by (bit metric) written }
{
    if metric { written } else { 1 }
}

// The cost of an operator; it is within its limit as it is written, whatever the metric.
fn cost(text: &mut Text, metric: bool) -> Result<usize, Refusal>
    ensures kept { text.new.bytes ≡ text.old.bytes }
    ensures read { read_of result text.new.at ≡ number_by (count 1000000) (cost_by (bit metric)) text.old.bytes.now (cursor_at text.old.at) }
{
    let place = text.at;
    let written = text.number(Separator::LineFeed)?;
    let spent = cost_by(metric, written);
    judged(written <= limits::MOST_COST, Reason::OutsideLimits, place)?;
    Ok(spent)
}

// An operator, as action `a`.
fn operator(text: &mut Text, metric: bool, task: &mut Arrays, a: usize) -> Result<(), Refusal>
    requires variables { task.old.variables ≤ 64 }
    requires action { a < 512 }
    ensures kept { text.new.bytes ≡ text.old.bytes }
    ensures rows { RowsOnly task.old task.new }
    ensures read { OperatorRead text.old.bytes.now (cursor_at text.old.at) (take task.old.variables task.old.sizes) (bit metric) task.old.costs task.old.conditions task.old.effects a (cursor_of result text.new.at) task.new.costs task.new.conditions task.new.effects }
{
    let base = limits::ROW * a;
    let sizes = &task.sizes[..task.variables];
    text.word(b"begin_operator\n")?;
    text.name()?;
    let pairs = text.count(limits::MOST_PAIRS)?;
    lists::conditions(text, pairs, sizes, &mut task.conditions, base)?;
    let changes = text.count(limits::MOST_PAIRS)?;
    effects_of(
        text,
        changes,
        sizes,
        &mut task.conditions,
        &mut task.effects,
        base,
    )?;
    task.costs[a] = cost(text, metric)? as u32;
    text.word(b"end_operator\n")
}

// As many operators as the task has actions.
pub fn operators(text: &mut Text, metric: bool, task: &mut Arrays) -> Result<(), Refusal>
    requires variables { task.old.variables ≤ 64 }
    requires actions { task.old.actions ≤ 512 }
    ensures kept { text.new.bytes ≡ text.old.bytes }
    ensures rows { RowsOnly task.old task.new }
    ensures read { OperatorsRead text.old.bytes.now (cursor_at text.old.at) task.old.actions (take task.old.variables task.old.sizes) (bit metric) task.old.costs task.old.conditions task.old.effects (cursor_of result text.new.at) task.new.costs task.new.conditions task.new.effects }
{
    for a in 0..task.actions {
        operator(text, metric, task, a)?;
    }
    Ok(())
}
