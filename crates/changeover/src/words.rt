// The words of a command: arguments, or the parts of a line.
use std::env::FillError;
use std::rt::Env;

// How many words are told apart: more than any command has.
const MOST: usize = 8;

// The most bytes of a command: room for a line of three paths, each as long as the system takes.
pub const LINE: usize = 16384;

// The words, and how many they are; of those that are too many only that they are.
#[derive(Clone, Copy)]
pub struct Words<'a> {
    words: [&'a [u8]; MOST],
    count: usize,
}

impl<'a> Words<'a> {
    fn none() -> Words<'a> {
        Words {
            words: [b""; MOST],
            count: 0,
        }
    }

    // The program's arguments, copied into a text; one that finds no room is empty.
    // Kept: `arg` and its buffer, since `env::args` refuses an argument that is no text, and such a name is printed.
    pub fn of_arguments(rt: &impl Env, text: &'a mut [u8; LINE]) -> Words<'a> {
        let mut words = Words::none();
        let mut room: &'a mut [u8] = text;
        for i in 1..=MOST {
            let length = match rt.arg(i, room) {
                Ok(length) => length,
                Err(FillError::TooLong) => 0,
                Err(FillError::NotPresent) => break,
            };
            let (word, others) = room.split_at_mut(length);
            words.push(word);
            room = others;
        }
        words
    }

    // The words of a line, which single blanks part.
    pub fn of_line(line: &'a [u8]) -> Words<'a> {
        let mut words = Words::none();
        for word in line.split(|byte| *byte == b' ') {
            words.push(word);
        }
        words
    }

    // One word more, where it can be told apart.
    fn push(&mut self, word: &'a [u8]) {
        if self.count < MOST {
            self.words[self.count] = word;
            self.count += 1;
        }
    }

    pub fn as_slice(&self) -> &[&'a [u8]] {
        self.words.split_at(self.count.min(MOST)).0
    }
}
