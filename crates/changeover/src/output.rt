// Files written under another name and then put in place, so that a name always has a whole file.
use crate::failure::Failure;
use crate::system;
use crate::words::LINE;
use std::fs::{File, OpenFile, OpenOptions};
use std::io::{ErrorKind, Write};
use std::rt::Files;
use std::{fs, io};

// Room for a name with its ending.
const ROOM: usize = LINE + 4;

// Writes a file.
pub fn write<'a>(
    rt: &(impl Files + Eprint),
    name: &'a [u8],
    bytes: &[u8],
) -> Result<(), Failure<'a>> {
    Prepared::write(rt, name, bytes)?.place(rt)
}

// Writes two files by their names and bytes, both of them whole before the first gets its name.
pub fn write_two<'a>(
    rt: &(impl Files + Eprint),
    first: (&'a [u8], &[u8]),
    second: (&'a [u8], &[u8]),
) -> Result<(), Failure<'a>> {
    let one = Prepared::write(rt, first.0, first.1)?;
    let other = match Prepared::write_apart(rt, second.0, second.1, first.0) {
        Ok(other) => other,
        Err(failure) => {
            one.withdraw(rt);
            return Err(failure);
        }
    };
    if let Err(failure) = one.place(rt) {
        other.withdraw(rt);
        return Err(failure);
    }
    other.place(rt)
}

// The name with `.new` behind it, under which a file stands first.
#[derive(Clone, Copy)]
struct Path {
    bytes: [u8; ROOM],
    length: usize,
}

impl Path {
    fn of(name: &[u8]) -> Path {
        let mut path = Path {
            bytes: [0; ROOM],
            length: 0,
        };
        path.push(name);
        path.push(b".new");
        path
    }

    // More bytes, as far as there is room.
    fn push(&mut self, more: &[u8]) {
        let (_, room) = self.bytes.split_at_mut(self.length.min(ROOM));
        let count = room.len().min(more.len());
        room[..count].copy_from_slice(&more[..count]);
        self.length = self.length.min(ROOM) + count;
    }

    fn as_slice(&self) -> &[u8] {
        self.bytes.split_at(self.length.min(ROOM)).0
    }
}

// A file that stands under another name, and has still to take its own.
#[derive(Drop)]
struct Prepared<'a> {
    name: &'a [u8],
    path: Path,
}

impl<'a> Prepared<'a> {
    // Writes a file NAME.new, which is not there. Where the system refuses, it says why, and the file is not left
    // behind.
    fn write(
        rt: &(impl Files + Eprint),
        name: &'a [u8],
        bytes: &[u8],
    ) -> Result<Prepared<'a>, Failure<'a>> {
        let path = Path::of(name);
        if let Err(error) = is_for_files(rt, name) {
            return Err(system::fail(rt, name, name, &error));
        }
        let file = match create(rt, path.as_slice()) {
            Ok(file) => file,
            Err(error) => return Err(system::fail(rt, name, path.as_slice(), &error)),
        };
        if let Err(error) = write_to_device(file, bytes) {
            let failure = system::fail(rt, name, path.as_slice(), &error);
            remove(rt, path.as_slice());
            return Err(failure);
        }
        Ok(Prepared { name, path })
    }

    // The same for a second file, where the first does not take the name under which this one is written.
    fn write_apart(
        rt: &(impl Files + Eprint),
        name: &'a [u8],
        bytes: &[u8],
        first: &[u8],
    ) -> Result<Prepared<'a>, Failure<'a>> {
        let was_there = is_there(rt, first);
        let prepared = Prepared::write(rt, name, bytes)?;
        if was_there || !is_there(rt, first) {
            return Ok(prepared);
        }
        prepared.withdraw(rt);
        system::say(rt, first, "the other file is written here");
        Err(Failure::File(name))
    }

    // Gives the file its name. Where the system refuses, it says why, and the file is not left behind.
    fn place(self, rt: &(impl Files + Eprint)) -> Result<(), Failure<'a>> {
        match rename(rt, self.path.as_slice(), self.name) {
            Ok(()) => Ok(()),
            Err(error) => {
                let failure = system::fail(rt, self.name, self.name, &error);
                self.withdraw(rt);
                Err(failure)
            }
        }
    }

    // Removes the file.
    fn withdraw(self, rt: &impl Files) {
        remove(rt, self.path.as_slice());
    }
}

// Whether a file may take the name: it is not that of a folder, a pipe or a terminal. The last two cannot
// be written up to a device.
fn is_for_files(rt: &impl Files, name: &[u8]) -> io::Result<()> {
    match open_update(rt, name) {
        Ok(file) => file.sync_all(),
        Err(error) if error.kind() == ErrorKind::IsADirectory => Err(error),
        Err(_) => Ok(()),
    }
}

// Whether the name can be read, as that of a file that this run has made can.
fn is_there(rt: &impl Files, name: &[u8]) -> bool {
    match system::path(name) {
        Ok(path) => File::open(rt, path).is_ok(),
        Err(_) => false,
    }
}

// Opens a file for reading and writing, and leaves it as it is.
fn open_update<R: Files>(rt: &R, name: &[u8]) -> io::Result<R::File> {
    OpenOptions::new()
        .read(true)
        .write(true)
        .open(rt, system::path(name)?)
}

// Makes a file, whose name is not taken.
fn create<R: Files>(rt: &R, path: &[u8]) -> io::Result<R::File> {
    OpenOptions::new()
        .write(true)
        .create_new(true)
        .open(rt, system::path(path)?)
}

fn rename(rt: &impl Files, from: &[u8], to: &[u8]) -> io::Result<()> {
    fs::rename(rt, system::path(from)?, system::path(to)?)
}

// Removes a file, where the system lets it.
fn remove(rt: &impl Files, path: &[u8]) {
    if let Ok(path) = system::path(path) {
        let _ = fs::remove_file(rt, path);
    }
}

// Writes to a file up to its device, and closes it.
fn write_to_device<F: Write + OpenFile + Drop>(mut file: F, bytes: &[u8]) -> io::Result<()> {
    file.write_all(bytes)?;
    file.sync_all()
}
