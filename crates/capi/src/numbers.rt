// Each kind of answer as the eighteen numbers that a C caller gets.
#![tactic(auto, unfolding(crate::specs::Numbers::at, crate::specs::Numbers::listed, crate::specs::Numbers::outcome_numbers, crate::specs::Numbers::checked_numbers, crate::specs::Numbers::marked_numbers, crate::specs::Numbers::reduced_numbers, crate::specs::Numbers::planned_numbers, crate::specs::Numbers::laid_numbers, crate::specs::Numbers::translated_numbers))]

ghost use Rattle.std.specs.Prelude.{◌≡◌, Ok, MatchResult};
ghost use Rattle.files.specs.Outcome.{done, refused};
ghost use Rattle.capi.specs.Numbers.{listed, outcome_numbers, checked_numbers, marked_numbers, reduced_numbers, planned_numbers, laid_numbers, translated_numbers};
ghost use Rattle.plans.specs.Check.{checked_of};
ghost use Rattle.marking.specs.Mark.{marked_of};
ghost use Rattle.reduction.specs.Reduce.{reduced_of};
ghost use Rattle.search.specs.Planner.{planned_of};
ghost use Rattle.sheets.specs.Sheet.{laid_of};
ghost use Rattle.translator.specs.Translate.{translated_of};

use files::refusals::Refusal;
use plans::PlanTotal;
use sheets::LaidPage;

// The numbers of an answer by name, in the order of their places: the outcome's three, rounds, cost,
// steps; the elements written: action marks, fact marks, reduced file, origin file, table, plan file,
// page, task file; turns. The three behind, from place 15 on, are for calls to come.
#[derive(Clone, Copy, Default)]
pub struct Numbers {
    number: u32,
    file: u32,
    place: usize,
    rounds: usize,
    cost: u64,
    steps: u16,
    action_marks: usize,
    fact_marks: usize,
    reduced: usize,
    origin: usize,
    table: usize,
    plan: usize,
    page: usize,
    task: usize,
    turns: usize,
    list: usize,
    goal: u64,
    entries: usize,
}

// The numbers of a refusal.
impl From<Refusal> for Numbers {
    ghost from_gives = { λ refusal n. listed n ≡ outcome_numbers (refused refusal) };

    fn from(refusal: Refusal) -> Numbers {
        Numbers {
            number: refusal.reason.number(),
            file: refusal.in_second as u32,
            place: refusal.place,
            ..Numbers::default()
        }
    }
}

// A file that is accepted has no number.
impl From<()> for Numbers {
    ghost from_gives = { λ _ n. listed n ≡ outcome_numbers done };

    fn from(_accepted: ()) -> Numbers {
        Numbers::default()
    }
}

impl From<PlanTotal> for Numbers {
    ghost from_gives = { λ total n. listed n ≡ checked_numbers (checked_of (Ok total)) };

    fn from(total: PlanTotal) -> Numbers {
        Numbers {
            cost: total.cost.0,
            steps: total.steps.0,
            ..Numbers::default()
        }
    }
}

impl From<marking::Counts> for Numbers {
    ghost from_gives = { λ marked n. listed n ≡ marked_numbers (marked_of (Ok marked)) };

    fn from(marked: marking::Counts) -> Numbers {
        Numbers {
            rounds: marked.rounds,
            action_marks: marked.action_marks,
            fact_marks: marked.fact_marks,
            ..Numbers::default()
        }
    }
}

impl From<LaidPage> for Numbers {
    ghost from_gives = { λ laid n. listed n ≡ laid_numbers (laid_of (Ok laid)) };

    fn from(laid: LaidPage) -> Numbers {
        Numbers {
            cost: laid.cost.0,
            steps: laid.steps.0,
            page: laid.length,
            ..Numbers::default()
        }
    }
}

impl From<reduction::Counts> for Numbers {
    ghost from_gives = { λ counts n. listed n ≡ reduced_numbers (reduced_of (Ok counts)) };

    fn from(counts: reduction::Counts) -> Numbers {
        Numbers {
            rounds: counts.rounds,
            action_marks: counts.action_marks,
            fact_marks: counts.fact_marks,
            reduced: counts.reduced,
            origin: counts.origin,
            turns: counts.turns,
            ..Numbers::default()
        }
    }
}

impl From<search::Counts> for Numbers {
    ghost from_gives = { λ counts n. listed n ≡ planned_numbers (planned_of (Ok counts)) };

    fn from(counts: search::Counts) -> Numbers {
        Numbers {
            rounds: counts.rounds,
            cost: counts.cost.0,
            steps: counts.steps.0,
            action_marks: counts.action_marks,
            fact_marks: counts.fact_marks,
            reduced: counts.reduced,
            origin: counts.origin,
            table: counts.table,
            plan: counts.plan,
            turns: counts.turns,
            ..Numbers::default()
        }
    }
}

// The bytes of the task file of a text.
impl From<usize> for Numbers {
    ghost from_gives = { λ length n. listed n ≡ translated_numbers (translated_of (Ok length)) };

    fn from(length: usize) -> Numbers {
        Numbers {
            task: length,
            ..Numbers::default()
        }
    }
}

// Writes the numbers of an answer, or those of the refusal.
pub fn write<A: Into<Numbers>>(answer: Result<A, Refusal>, out: &mut [u64; 18])
    ensures { MatchResult answer (λ x. (n : Numbers) × A.converts x n × (out.new ≡ listed n)) (λ r. out.new ≡ outcome_numbers (refused r)) }
{
    let numbers = match answer {
        Ok(answer) => answer.into(),
        Err(refusal) => Numbers::from(refusal),
    };
    write_numbers(numbers, out);
}

// Writes each number at its place.
pub fn write_numbers(numbers: Numbers, out: &mut [u64; 18])
    ensures { out.new ≡ listed numbers }
{
    *out = [
        numbers.number as u64,
        numbers.file as u64,
        numbers.place as u64,
        numbers.rounds as u64,
        numbers.cost,
        numbers.steps as u64,
        numbers.action_marks as u64,
        numbers.fact_marks as u64,
        numbers.reduced as u64,
        numbers.origin as u64,
        numbers.table as u64,
        numbers.plan as u64,
        numbers.page as u64,
        numbers.task as u64,
        numbers.turns as u64,
        numbers.list as u64,
        numbers.goal,
        numbers.entries as u64,
    ];
}
