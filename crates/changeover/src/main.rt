// The library's calls on files by name: one command by arguments, or a command a line of standard input.
#![tactic(auto)]

mod command;
mod commands;
mod done;
mod failure;
mod input;
mod lines;
mod marks;
mod output;
mod printer;
mod show;
mod system;
mod words;

use command::Command;
use failure::Stop;
use printer::Printer;
use std::io;
use std::io::Write;
use std::rt::{Env, Files};
use words::{LINE, Words};

// Where standard output has refused some bytes, nothing more is printed, not even what waits.
fn main(rt: HostRuntime) {
    let mut out = Printer::new(io::writer(&rt));
    let _ = run(&rt, &mut out);
}

// Runs the command of the arguments, or those of standard input.
fn run(rt: &(impl Env + Files + Input + Eprint), out: &mut impl Write) -> Result<(), Stop> {
    let mut text = [0u8; LINE];
    let words = Words::of_arguments(rt, &mut text);
    match Command::of(words.as_slice()) {
        Ok(Command::Lines) => lines::run(rt, out),
        command => commands::run(rt, out, command),
    }
}
