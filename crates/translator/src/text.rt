// A text from its start to its end, into a task's arrays.
ghost use Rattle.std.specs.Prelude.{◌≡◌, ◌≤◌, IfOk};
ghost use Rattle.files.specs.Below.{bit};
ghost use Rattle.files.specs.Outcome.{outcome_of};
ghost use Rattle.translator.specs.Format.{cursor_at};
ghost use Rattle.translator.specs.Parts.{metric_after, begun_of, begun, FrontRead, Roomy, ended_at, BodyRead, TextRead};
ghost use Rattle.translator.specs.Reads.{test_of};

use crate::fields::{Separator, Text, judged};
use crate::{groups, lists, operators, variables};
use files::arrays::Arrays;
use files::limits;
use files::refusals::{Reason, Refusal};

// The metric: 0 or 1.
fn metric(text: &mut Text) -> Result<bool, Refusal>
    ensures kept { text.new.bytes ≡ text.old.bytes }
    ensures read { test_of result text.new.at ≡ metric_after text.old.bytes.now (cursor_at text.old.at) }
{
    if text.next_is(b'1') {
        text.word(b"1\n")?;
        return Ok(true);
    }
    text.word(b"0\n")?;
    Ok(false)
}

// The metric, the variables with their start values, and the groups: whether the metric is 1.
fn front(text: &mut Text, task: &mut Arrays) -> Result<bool, Refusal>
    requires { text.old.at ≡ 0 }
    ensures kept { text.new.bytes ≡ text.old.bytes }
    ensures room { IfOk result (λ metric. Roomy task.old × Roomy task.new) }
    ensures read { FrontRead text.old.bytes.now task.old.sizes task.old.starts (begun_of result text.new.at task.new.variables) task.new.sizes task.new.starts }
{
    text.word(b"begin_version\n3\nend_version\nbegin_metric\n")?;
    let metric = metric(text)?;
    text.word(b"end_metric\n")?;
    task.variables = text.count(limits::MOST_VARIABLES)?;
    variables::declarations(text, task.variables, &mut task.sizes)?;
    groups::groups(text)?;
    text.word(b"begin_state\n")?;
    variables::starts(text, task.variables, &task.sizes, &mut task.starts)?;
    Ok(metric)
}

// The count of axioms, which is to be 0, and the end of the text.
fn ended(text: &mut Text) -> Result<(), Refusal>
    ensures { outcome_of result ≡ ended_at text.old.bytes.now (cursor_at text.old.at) }
{
    let place = text.at;
    let rules = text.number(Separator::LineFeed)?;
    judged(rules == 0, Reason::Unsupported, place)?;
    judged(text.bytes.len() <= text.at, Reason::WrongForm, text.at)
}

// The goal, the operators and the end.
fn body(text: &mut Text, metric: bool, task: &mut Arrays) -> Result<(), Refusal>
    requires { task.old.variables ≤ 64 }
    ensures { BodyRead text.old.bytes.now (begun text.old.at (bit metric) task.old.variables) task.old (outcome_of result) task.new }
{
    text.word(b"end_state\nbegin_goal\n")?;
    let pairs = text.count(limits::MOST_PAIRS)?;
    lists::conditions(
        text,
        pairs,
        &task.sizes[..task.variables],
        &mut task.goal,
        0,
    )?;
    text.word(b"end_goal\n")?;
    task.actions = text.count(limits::MOST_ACTIONS)?;
    operators::operators(text, metric, task)?;
    ended(text)
}

// A text that is within the limit of a file.
pub fn read(bytes: &[u8], task: &mut Arrays) -> Result<(), Refusal>
    ensures { TextRead bytes.now (outcome_of result) task.new }
{
    judged(bytes.len() <= limits::MOST_BYTES, Reason::OutsideLimits, 0)?;
    let mut text = Text { bytes, at: 0 };
    let metric = front(&mut text, task)?;
    body(&mut text, metric, task)
}
