// Levels of marking.
ghost use Rattle.std.specs.Prelude.{◌≡◌, eqb, leb};
ghost use Rattle.marking.specs.Levels.{level_number, LevelOf, MarksLike};

use files::refusals::{Reason, Refusal};

// A level of marking.
#[derive(Clone, Copy, Debug, PartialEq, Eq)]
pub enum Level {
    // A variable with a relevant fact counts whole.
    One,
    // Facts count one by one.
    Two,
    // Start facts of variables that are not threatened are linked.
    Three,
    // The conditions of covered actions are set aside.
    Four,
}

impl Level {
    // The level that marks as a number does: 0 marks as level 2, a number above 4 as level 3.
    pub(crate) fn like(number: u32) -> Level
        ensures { MarksLike number (level_number result) }
    {
        match number {
            0 | 2 => Level::Two,
            1 => Level::One,
            4 => Level::Four,
            _ => Level::Three,
        }
    }

    // The level's number.
    pub fn number(self) -> u32
        ensures { result ≡ level_number self }
    {
        match self {
            Level::One => 1,
            Level::Two => 2,
            Level::Three => 3,
            Level::Four => 4,
        }
    }

    // Whether a variable counts whole.
    pub(crate) fn is_whole(self) -> bool
        ensures { result ≡ eqb (level_number self) 1 }
    {
        matches!(self, Level::One)
    }

    // Whether there are linked facts.
    pub(crate) fn has_links(self) -> bool
        ensures { result ≡ leb 3 (level_number self) }
    {
        matches!(self, Level::Three | Level::Four)
    }

    // Whether covered actions are set aside.
    pub(crate) fn has_covering(self) -> bool
        ensures { result ≡ eqb (level_number self) 4 }
    {
        matches!(self, Level::Four)
    }
}

impl TryFrom<u32> for Level {
    type Error = Refusal;

    ghost try_from_gives = { LevelOf };

    fn try_from(number: u32) -> Result<Level, Refusal> {
        match number {
            1 => Ok(Level::One),
            2 => Ok(Level::Two),
            3 => Ok(Level::Three),
            4 => Ok(Level::Four),
            _ => Err(Refusal::at(Reason::UnknownLevel, 0)),
        }
    }
}
