// What each command does: it reads its files, makes its call, writes its files and prints how it ended.
use crate::command::{Command, Usage};
use crate::done::{Done, Total, Turns};
use crate::failure::{Failure, Stop};
use crate::{input, marks, output, show};
use files::limits;
use std::io::Write;
use std::rt::Files;

// Runs a command, and prints how it ended.
pub fn run(
    rt: &(impl Files + Eprint),
    out: &mut impl Write,
    command: Result<Command<'_>, Usage>,
) -> Result<(), Stop> {
    let ended = match command {
        Ok(command) => carry_out(rt, out, command),
        Err(usage) => Err(Failure::Words(usage)),
    };
    match ended {
        Ok(done) => writeln!(out, "{done}")?,
        Err(failure) => failure.print(out)?,
    }
    out.flush()?;
    Ok(())
}

fn carry_out<'a>(
    rt: &(impl Files + Eprint),
    out: &mut impl Write,
    command: Command<'a>,
) -> Result<Done, Failure<'a>> {
    // no line of standard input says that lines are to be read
    let Some(name) = command.first_file() else {
        return Err(Failure::Words(Usage::OfAll));
    };
    let mut space = [0u8; input::MOST];
    let file = input::read(rt, name, &mut space)?;
    match command {
        Command::Show { .. } => show(out, file),
        Command::Mark { level, .. } => mark(out, file, level),
        Command::Reduce {
            level,
            signer,
            reduced,
            origin,
            ..
        } => reduce(rt, file, level, signer, reduced, origin),
        Command::Plan {
            signer,
            plan,
            level,
            ..
        } => make_plan(rt, file, level, signer, plan),
        Command::CheckPlan { plan, .. } => check_plan(rt, file, plan),
        Command::Sheet { plan, page, .. } => sheet(rt, file, plan, page),
        Command::Translate { signer, task, .. } => translate(rt, file, signer, task),
        Command::Check { .. } | Command::Lines => check(file),
    }
}

// The first `count` bytes, or all where there are fewer.
fn front(bytes: &[u8], count: usize) -> &[u8] {
    bytes.split_at(count.min(bytes.len())).0
}

fn check<'a>(file: &[u8]) -> Result<Done, Failure<'a>> {
    let kind = show::check(file)?;
    Ok(show::counts(kind, file))
}

// This and the commands below are calls of their own, so that their arrays take no room before their first file is read.
#[inline(never)]
fn show<'a>(out: &mut impl Write, file: &[u8]) -> Result<Done, Failure<'a>> {
    let kind = show::check(file)?;
    show::put_file(out, kind, file)?;
    Ok(Done::Shown)
}

#[inline(never)]
fn mark<'a>(out: &mut impl Write, file: &[u8], level: u32) -> Result<Done, Failure<'a>> {
    let mut actions = [0u8; limits::MOST_ACTIONS];
    let mut facts = [0u8; limits::MOST_FACTS];
    let marked = marking::mark(file, level, &mut actions, &mut facts)?;
    marks::put_kept(out, file, &actions)?;
    marks::put_relevant(out, file, &facts)?;
    Ok(Done::Marked {
        rounds: marked.rounds,
    })
}

#[inline(never)]
fn reduce<'a>(
    rt: &(impl Files + Eprint),
    file: &[u8],
    level: u32,
    signer: u32,
    task_name: &'a [u8],
    origin_name: &'a [u8],
) -> Result<Done, Failure<'a>> {
    let mut actions = [0u8; limits::MOST_ACTIONS];
    let mut facts = [0u8; limits::MOST_FACTS];
    let mut task = [0u8; limits::MOST_BYTES];
    let mut origin = [0u8; limits::MOST_ORIGIN_BYTES];
    let reduced = reduction::reduce(
        file,
        level,
        signer,
        &mut actions,
        &mut facts,
        &mut task,
        &mut origin,
    )?;
    output::write_two(
        rt,
        (task_name, front(&task, reduced.reduced)),
        (origin_name, front(&origin, reduced.origin)),
    )?;
    Ok(Done::Reduced {
        rounds: reduced.rounds,
        turns: Turns(reduced.turns),
        reduced: reduced.reduced,
        origin: reduced.origin,
    })
}

#[inline(never)]
fn make_plan<'a>(
    rt: &(impl Files + Eprint),
    file: &[u8],
    level: u32,
    signer: u32,
    plan_name: &'a [u8],
) -> Result<Done, Failure<'a>> {
    let mut actions = [0u8; limits::MOST_ACTIONS];
    let mut facts = [0u8; limits::MOST_FACTS];
    let mut reduced = [0u8; limits::MOST_BYTES];
    let mut origin = [0u8; limits::MOST_ORIGIN_BYTES];
    let mut plan = [0u8; limits::MOST_PLAN_BYTES];
    let planned = search::own_table::plan(
        file,
        level,
        signer,
        &mut actions,
        &mut facts,
        &mut reduced,
        &mut origin,
        &mut plan,
    )?;
    output::write(rt, plan_name, front(&plan, planned.plan))?;
    let total = Total {
        cost: planned.cost,
        steps: planned.steps,
    };
    Ok(Done::Planned {
        total,
        turns: Turns(planned.turns),
    })
}

#[inline(never)]
fn translate<'a>(
    rt: &(impl Files + Eprint),
    text: &[u8],
    signer: u32,
    task_name: &'a [u8],
) -> Result<Done, Failure<'a>> {
    let mut task = [0u8; limits::MOST_BYTES];
    let length = translator::translate(text, signer, &mut task)?;
    output::write(rt, task_name, front(&task, length))?;
    Ok(Done::Translated { task: length })
}

#[inline(never)]
fn check_plan<'a>(
    rt: &(impl Files + Eprint),
    task: &[u8],
    plan_name: &'a [u8],
) -> Result<Done, Failure<'a>> {
    let mut space = [0u8; input::MOST];
    let plan = input::read(rt, plan_name, &mut space)?;
    let total = plans::check_plan(task, plan).map_err(|refusal| Failure::Refused(
        refusal, plan_name,
    ))?;
    Ok(Done::Checked(Total {
        cost: total.cost,
        steps: total.steps,
    }))
}

#[inline(never)]
fn sheet<'a>(
    rt: &(impl Files + Eprint),
    task: &[u8],
    plan_name: &'a [u8],
    page_name: &'a [u8],
) -> Result<Done, Failure<'a>> {
    let mut space = [0u8; input::MOST];
    let plan = input::read(rt, plan_name, &mut space)?;
    let mut page = [0u8; sheets::MOST_PAGE];
    let laid = sheets::sheet(task, plan, &mut page).map_err(|refusal| Failure::Refused(
        refusal, plan_name,
    ))?;
    output::write(rt, page_name, front(&page, laid.length))?;
    let total = Total {
        cost: laid.cost,
        steps: laid.steps,
    };
    Ok(Done::Laid {
        total,
        page: laid.length,
    })
}
