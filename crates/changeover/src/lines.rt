// Commands from standard input, a line each.
use crate::command::{Command, Usage};
use crate::failure::Stop;
use crate::words::{LINE, Words};
use crate::{commands, system};
use std::io::{Read, Write};
use std::rt::Files;

// What a line is, by what has been read of it.
#[derive(Clone, Copy, PartialEq, Eq)]
enum Kind {
    Command,
    // A command with more bytes than are kept.
    TooLong,
    // It begins with # and is printed as it comes.
    Comment,
}

// A line, of which a command's bytes are kept, and how many they are.
#[derive(Drop)]
struct Line {
    kind: Kind,
    bytes: [u8; LINE],
    length: usize,
}

// Runs every line, until standard input ends or standard output takes no more. What stands behind the last
// line feed is a line too, where standard input has been read whole.
pub fn run(rt: &(impl Files + Input + Eprint), out: &mut impl Write) -> Result<(), Stop> {
    let mut reader = rt.reader();
    let mut piece = [0u8; 4096];
    let mut line = Line::new();
    // a proved loop must end, and no input has so many pieces
    for _ in 0..u64::MAX {
        match reader.read(&mut piece) {
            Ok(0) => break,
            Ok(count) => line.read(rt, out, &piece[..count])?,
            Err(error) => {
                system::fail(rt, b"-", b"-", &error).print(out)?;
                out.flush()?;
                return Ok(());
            }
        }
    }
    if !line.is_empty() {
        line.end(rt, out)?;
    }
    out.flush()?;
    Ok(())
}

impl Line {
    // No byte of a line yet.
    fn new() -> Line {
        Line {
            kind: Kind::Command,
            bytes: [0; LINE],
            length: 0,
        }
    }

    fn is_empty(&self) -> bool {
        self.kind == Kind::Command && self.length == 0
    }

    // Reads a piece of standard input, in which line feeds end lines.
    fn read(
        &mut self,
        rt: &(impl Files + Eprint),
        out: &mut impl Write,
        piece: &[u8],
    ) -> Result<(), Stop> {
        for part in piece.split_inclusive(|byte| *byte == b'\n') {
            match part {
                [line @ .., b'\n'] => {
                    self.put(out, line)?;
                    self.end(rt, out)?;
                }
                _ => self.put(out, part)?,
            }
        }
        Ok(())
    }

    // Takes more bytes, up to those that are kept.
    fn put(&mut self, out: &mut impl Write, part: &[u8]) -> Result<(), Stop> {
        if self.is_empty() && part.first() == Some(&b'#') {
            self.kind = Kind::Comment;
        }
        if self.kind == Kind::Comment {
            out.write_all(part)?;
            return Ok(());
        }
        let (_, room) = self.bytes.split_at_mut(self.length.min(LINE));
        let (kept, more) = part.split_at(part.len().min(room.len()));
        room[..kept.len()].copy_from_slice(kept);
        self.length = self.length.min(LINE) + kept.len();
        if !more.is_empty() {
            self.kind = Kind::TooLong;
        }
        Ok(())
    }

    // Ends a comment or runs a command, and begins the next line.
    fn end(&mut self, rt: &(impl Files + Eprint), out: &mut impl Write) -> Result<(), Stop> {
        if self.kind == Kind::Comment {
            out.write_all(b"\n")?;
        } else {
            self.run(rt, out)?;
        }
        self.kind = Kind::Command;
        self.length = 0;
        Ok(())
    }

    // Runs the command whose words single blanks part. No line says that lines are to be read.
    fn run(&self, rt: &(impl Files + Eprint), out: &mut impl Write) -> Result<(), Stop> {
        let (line, _) = self.bytes.split_at(self.length.min(LINE));
        let words = Words::of_line(line);
        if self.kind == Kind::TooLong {
            return commands::run(rt, out, Err(Usage::of(words.as_slice())));
        }
        commands::run(rt, out, Command::of(words.as_slice()))
    }
}
