// Standard output. Text waits, and goes out where there is no room for more and where it is flushed.
use std::io;
use std::io::Write;

// How many bytes may wait.
const ROOM: usize = 512;

// Where the text goes, the bytes that wait, and how many they are.
// Kept: no `BufWriter`, since it takes memory, and writes once more when it is dropped after a refusal.
#[derive(Drop)]
pub struct Printer<W: Write> {
    to: W,
    bytes: [u8; ROOM],
    waiting: usize,
}

impl<W: Write> Printer<W> {
    pub fn new(to: W) -> Printer<W> {
        Printer {
            to,
            bytes: [0; ROOM],
            waiting: 0,
        }
    }
}

impl<W: Write> Write for Printer<W> {
    // Takes as much as there is room for; what waits goes out first where there is none.
    fn write(&mut self, text: &[u8]) -> io::Result<usize> {
        if ROOM <= self.waiting {
            self.flush()?;
        }
        let (_, room) = self.bytes.split_at_mut(self.waiting.min(ROOM));
        let count = room.len().min(text.len());
        room[..count].copy_from_slice(&text[..count]);
        self.waiting = self.waiting.min(ROOM) + count;
        Ok(count)
    }

    // Prints what waits.
    fn flush(&mut self) -> io::Result<()> {
        let (waiting, _) = self.bytes.split_at(self.waiting.min(ROOM));
        self.to.write_all(waiting)?;
        self.waiting = 0;
        Ok(())
    }
}
