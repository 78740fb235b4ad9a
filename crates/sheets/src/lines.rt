// The lines of a sheet.
ghost use Rattle.std.specs.Prelude.{◌≡◌, ◌+◌, ◌≤◌, length, get_or};
ghost use Rattle.files.specs.Bytes.{placed};
ghost use Rattle.files.specs.PlanFile.{plan_of};
ghost use Rattle.digits.specs.Decimal.{ascii};
ghost use Rattle.sheets.specs.Clauses.{LineFits, StepsFit, SignerFits};
ghost use Rattle.sheets.specs.Sheet.{step_line, step_lines, signed_line};

use digits::columns;
use plans::{Minutes, OriginalAction, Steps};

// How many bytes a line has.
pub const LINE: usize = 33;

// Writes the line of a step: its number, its action, its minutes and the running total.
fn put_step(
    page: &mut [u8],
    at: usize,
    step: Steps,
    action: OriginalAction,
    minutes: Minutes,
    total: Minutes,
)
    requires { LineFits page.old at step.0 action.0 minutes.0 total.0 }
    ensures { page.new ≡ placed page.old at (step_line step.0 action.0 minutes.0 total.0) }
{
    columns::put_column(page, at, 4, step.0 as u64);
    columns::put_blanks(page, at + 4, 2);
    columns::put_column(page, at + 6, 5, action.0 as u64);
    columns::put_column(page, at + 11, 9, minutes.0);
    columns::put_column(page, at + 20, 12, total.0);
    page[at + 32] = b'\n';
}

// Writes a line for each step of a plan file, from the page's start on.
pub fn put_steps(page: &mut [u8], plan: &[u8], costs: &[u32; 512])
    requires { StepsFit page.old (plan_of plan.now) costs.now }
    ensures { page.new ≡ placed page.old 0 (step_lines (λ a. get_or costs.now a 0) 0 0 (plan_of plan.now)) }
{
    let steps = files::plan::steps(plan).0 as usize;
    let mut total = Minutes(0);
    for i in 0..steps {
        let action = files::plan::step(plan, i);
        let minutes = Minutes::from(costs[action.0 as usize]);
        total = Minutes(total.0 + minutes.0);
        put_step(
            page,
            LINE * i,
            Steps((i + 1) as u16),
            action,
            minutes,
            total,
        );
    }
}

// Writes the word SIGNED.
fn put_word(page: &mut [u8], at: usize)
    requires { at + 6 ≤ length page.old }
    ensures { page.new ≡ placed page.old at (ascii "SIGNED") }
{
    page[at..at + 6].copy_from_slice(b"SIGNED");
}

// Writes the last line: the word, then the signer.
pub fn put_signed(page: &mut [u8], at: usize, signer: u64)
    requires { SignerFits page.old at signer }
    ensures { page.new ≡ placed page.old at (signed_line signer) }
{
    put_word(page, at);
    columns::put_column(page, at + 6, 26, signer);
    page[at + 32] = b'\n';
}
