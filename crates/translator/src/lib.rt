// Tasks from the text that the Fast Downward translator writes, format version 3.
#![tactic(auto)]

mod fields;
mod groups;
mod lists;
mod operators;
mod text;
mod variables;

ghost use Rattle.translator.specs.Translate.{Translates, translated_of};

use files::arrays::Arrays;
use files::refusals::{Reason, Refusal};

// The task that a text of the translator's format, version 3, states, as a task file under a signer:
// how many bytes the file has.
pub fn translate(text: &[u8], signer: u32, file: &mut [u8]) -> Result<usize, Refusal>
    ensures { Translates text.now signer file.old (translated_of result) file.new }
{
    let mut task = Arrays::empty();
    text::read(text, &mut task)?;
    if signer < 1 {
        return Err(Refusal::at(Reason::WrongSignOff, 0));
    }
    let needed = task.file_length();
    if file.len() < needed {
        return Err(Refusal::at(Reason::ShortBuffer, needed));
    }
    task.write(file, signer as usize);
    Ok(needed)
}
