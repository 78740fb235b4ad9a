// How many actions only a cheaper one covers, by the marks of level 4.
use crate::task::{Action, Task};
use marking::marks;

// What a covering action costs, against the action that it covers.
#[derive(Clone, Copy, Debug, PartialEq, Eq)]
enum Cost {
    TheSame,
    Less,
}

// How many actions of a file's task only a cheaper one covers.
pub fn by_cheaper_alone(file: &[u8], task: &Task) -> usize {
    let mut actions = [0u8; 10];
    let mut facts = [0u8; 16];
    if marking::mark(file, 4, &mut actions, &mut facts).is_err() {
        return 0;
    }
    let tracked = tracked(task, &facts);
    let marked = task.actions.as_slice().iter().zip(actions.iter());
    let mut kept = [None; 10];
    for ((action, mark), kept) in marked.zip(kept.iter_mut()) {
        if *mark == marks::KEPT {
            *kept = Some(*action);
        }
    }
    let by_cheaper = kept.iter().flatten().filter(|action| {
        !is_covered(action, &kept, Cost::TheSame, &tracked)
            && is_covered(action, &kept, Cost::Less, &tracked)
    });
    by_cheaper.count()
}

// Whether an action is covered by one of such a cost.
fn is_covered(action: &Action, by: &[Option<Action>], cost: Cost, tracked: &[bool]) -> bool {
    by.iter()
        .flatten()
        .any(|one| covers(one, action, cost, tracked))
}

// The variables that have a fact that is relevant and not linked; the marks stand by variables.
fn tracked(task: &Task, facts: &[u8]) -> [bool; 4] {
    let mut tracked = [false; 4];
    let mut left = facts;
    for (is_tracked, of) in tracked.iter_mut().zip(task.variables.as_slice().iter()) {
        let (values, others) = left.split_at(usize::from(of.size).min(left.len()));
        *is_tracked = values.contains(&marks::RELEVANT);
        left = others;
    }
    tracked
}

// Whether an action of such a cost covers another: it asks for less, and does the same to each tracked variable.
fn covers(one: &Action, other: &Action, cost: Cost, tracked: &[bool]) -> bool {
    let costs = match cost {
        Cost::TheSame => one.cost == other.cost,
        Cost::Less => one.cost < other.cost,
    };
    costs
        && is_within(one, other)
        && !is_within(other, one)
        && (0..4).zip(tracked.iter()).all(|(variable, is_tracked)| {
            !*is_tracked || effect_on(one, variable) == effect_on(other, variable)
        })
}

// Whether every condition of an action is one of another.
fn is_within(one: &Action, other: &Action) -> bool {
    let others = other.conditions.as_slice();
    one.conditions
        .as_slice()
        .iter()
        .all(|condition| others.contains(condition))
}

// The value that an action gives a variable.
fn effect_on(action: &Action, variable: u16) -> Option<u16> {
    let mut effects = action.effects.as_slice().iter();
    effects
        .find(|fact| fact.variable == variable)
        .map(|fact| fact.value)
}
