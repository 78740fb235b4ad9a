// Levels of reduction.
ghost use Rattle.reduction.specs.Level.{LevelOf};

use files::refusals::Refusal;
use marking::levels;

// A level of reduction.
#[derive(Clone, Copy, Debug, PartialEq, Eq)]
pub enum Level {
    // Reduction once, by the marks of a level.
    Once(levels::Level),
    // Reduction at level 4 in turns: level 5.
    InTurns,
}

impl TryFrom<u32> for Level {
    type Error = Refusal;

    ghost try_from_gives = { LevelOf };

    fn try_from(number: u32) -> Result<Level, Refusal> {
        if number == 5 {
            return Ok(Level::InTurns);
        }
        let level = levels::Level::try_from(number)?;
        Ok(Level::Once(level))
    }
}
