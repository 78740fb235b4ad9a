// Reads a task file from its standard input, plans the task under the file's own signer, and prints
// what it found.
#![tactic(auto)]

mod input;
mod listing;
mod printer;

use files::limits;
use listing::{Listing, Refused};
use printer::Printer;
use std::io;
use std::io::Write;

// It plans at this level.
const LEVEL: u32 = 4;

// The bytes of a plan file of 4,095 steps, as many as a plan of a task of 4,096 states has at most.
const PLAN: usize = limits::MOST_PLAN_BYTES - 2;

fn main(rt: HostRuntime) -> io::Result<()> {
    let mut space = [0u8; input::MOST];
    let length = input::read_full(&mut rt.reader(), &mut space)?;
    let mut out = Printer::new(io::writer(&rt));
    print_plan(&mut out, &space[..length])?;
    out.flush()
}

// Plans with buffers that are long enough for every task.
fn print_plan(out: &mut impl Write, file: &[u8]) -> io::Result<()> {
    let mut actions = [0u8; limits::MOST_ACTIONS];
    let mut facts = [0u8; limits::MOST_FACTS];
    let mut reduced = [0u8; limits::MOST_BYTES];
    let mut origin = [0u8; limits::MOST_ORIGIN_BYTES];
    let mut plan = [0u8; PLAN];
    let answer = search::own_table::plan(
        file,
        LEVEL,
        signer(file),
        &mut actions,
        &mut facts,
        &mut reduced,
        &mut origin,
        &mut plan,
    );
    match answer {
        Ok(planned) => {
            let listing = Listing {
                task: file,
                kept: &reduced,
                plan: &plan,
                cost: planned.cost,
                steps: planned.steps,
            };
            write!(out, "{listing}")
        }
        Err(refusal) => write!(out, "{}", Refused(refusal)),
    }
}

// The signer of the file; of a file over the limit, which is refused under any signer, 0.
fn signer(file: &[u8]) -> u32 {
    if limits::MOST_BYTES < file.len() {
        return 0;
    }
    files::records::signer(file) as u32
}
