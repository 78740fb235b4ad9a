// A text, read at an offset: words, names and numbers, each with the byte that ends it.
ghost use Rattle.std.specs.Prelude.{◌≡◌, ◌+◌, ◌-◌, ◌*◌, ◌≤◌, ◌<◌, ◌==◌, eqb, get_or, length, drop};
ghost use Rattle.std.specs.List.{position};
ghost use Rattle.files.specs.Outcome.{done, guard, number_of, outcome_of};
ghost use Rattle.translator.specs.Clauses.{capped, DigitBehind, digits_found, numeral_found, number_after, signed_after, number_by, same};
ghost use Rattle.translator.specs.Fields.{byte_at, word_at, line_length, numeral_length, numeral_at, word, name};
ghost use Rattle.translator.specs.Format.{cursor_at, field_after};
ghost use Rattle.translator.specs.Reads.{separator_of, cursor_of, read_of, coded_of, ToldRead};
ghost use Rattle.translator.specs.Sas.{byte_of};
ghost use Rattle.translator.specs.Text.{count};

use files::refusals::{Reason, Refusal};

// The number that stands for all from it on: above every limit, and more than a text has bytes.
const MOST: usize = 1048576;

// A text that is within the limit of a file, and how far it is read.
#[derive(Drop)]
pub struct Text<'a> {
    pub bytes: &'a [u8],
    pub at: usize,
    ghost limited: { length bytes.now ≤ 65536 },
    ghost within: { at ≤ length bytes.now },
}

// What ends a number.
#[derive(Clone, Copy)]
pub enum Separator {
    Blank,
    LineFeed,
}

impl Separator {
    fn byte(self) -> u8
        ensures { result ≡ byte_of (separator_of self) }
    {
        match self {
            Separator::Blank => b' ',
            Separator::LineFeed => b'\n',
        }
    }
}

// Digits: how many there are, and the number that they state.
#[derive(Clone, Copy)]
struct Found {
    count: usize,
    value: usize,
}

// Refuses at a place what does not pass.
pub fn judged(passes: bool, reason: Reason, place: usize) -> Result<(), Refusal>
    ensures { outcome_of result ≡ guard passes (number_of reason) place done }
{
    if passes {
        return Ok(());
    }
    Err(Refusal::at(reason, place))
}

// A number with one digit more.
fn next_value(value: usize, digit: u8) -> usize
    requires { DigitBehind value digit }
    ensures { result ≡ capped (10 * value + (digit - 48)) }
{
    let next = 10 * value + usize::from(digit - b'0');
    if MOST < next {
        return MOST;
    }
    next
}

// Where the first line feed is.
fn line_feed(rest: &[u8]) -> Option<usize>
    ensures { result ≡ position (λ b. b == 10) rest.now }
{
    rest.iter().position(|byte| *byte == b'\n')
}

impl<'a> Text<'a> {
    // Whether the byte at `at` is this one.
    fn byte_due(&self, at: usize, byte: u8) -> Result<(), Refusal>
        ensures { outcome_of result ≡ byte_at byte (drop at self.now.bytes.now) at }
    {
        if self.bytes.len() <= at || self.bytes[at] != byte {
            return Err(Refusal::at(Reason::WrongForm, at));
        }
        Ok(())
    }

    // Whether a word is next.
    fn word_due(&self, w: &[u8]) -> Result<(), Refusal>
        ensures { outcome_of result ≡ word_at w.now (drop self.now.at self.now.bytes.now) self.now.at }
    {
        for (i, byte) in w.iter().enumerate() {
            self.byte_due(self.at + i, *byte)?;
        }
        Ok(())
    }

    // Whether the next byte is this one, which is not 0.
    pub fn next_is(&self, byte: u8) -> bool
        requires { 1 ≤ byte }
        ensures { result ≡ eqb (get_or (drop self.now.at self.now.bytes.now) 0 0) byte }
    {
        self.at < self.bytes.len() && self.bytes[self.at] == byte
    }

    pub fn word(&mut self, w: &[u8]) -> Result<(), Refusal>
        ensures kept { self.new.bytes ≡ self.old.bytes }
        ensures read { cursor_of result self.new.at ≡ field_after (word w.now) self.old.bytes.now (cursor_at self.old.at) }
    {
        self.word_due(w)?;
        self.at += w.len();
        Ok(())
    }

    // Where the line ends: at its line feed, or at the end of the text.
    fn line_end(&self) -> usize
        ensures { result ≡ self.now.at + line_length (drop self.now.at self.now.bytes.now) }
    {
        let rest = &self.bytes[self.at..];
        self.at + line_feed(rest).unwrap_or(rest.len())
    }

    pub fn name(&mut self) -> Result<(), Refusal>
        ensures kept { self.new.bytes ≡ self.old.bytes }
        ensures read { cursor_of result self.new.at ≡ field_after name self.old.bytes.now (cursor_at self.old.at) }
    {
        let end = self.line_end();
        self.byte_due(end, b'\n')?;
        self.at = end + 1;
        Ok(())
    }

    // The digits that are next.
    fn digits(&self) -> Found
        ensures { result ≡ digits_found (drop self.now.at self.now.bytes.now) }
    {
        let mut value: usize = 0;
        for here in self.at..self.bytes.len() {
            let byte = self.bytes[here];
            if byte < b'0' || b'9' < byte {
                return Found {
                    count: here - self.at,
                    value,
                };
            }
            value = next_value(value, byte);
        }
        Found {
            count: self.bytes.len() - self.at,
            value,
        }
    }

    // The digits of the number that is next: one that begins with 0 is 0.
    fn numeral(&self) -> Found
        ensures { result ≡ numeral_found (drop self.now.at self.now.bytes.now) }
    {
        if self.next_is(b'0') {
            return Found { count: 1, value: 0 };
        }
        self.digits()
    }

    // Whether a number of `count` digits is next, with its separator.
    fn numeral_due(&self, count: usize, separator: Separator) -> Result<(), Refusal>
        requires { count ≡ numeral_length (drop self.now.at self.now.bytes.now) }
        ensures { outcome_of result ≡ numeral_at (byte_of (separator_of separator)) (drop self.now.at self.now.bytes.now) self.now.at }
    {
        if count < 1 {
            return Err(Refusal::at(Reason::WrongForm, self.at));
        }
        self.byte_due(self.at + count, separator.byte())
    }

    pub fn number(&mut self, separator: Separator) -> Result<usize, Refusal>
        ensures kept { self.new.bytes ≡ self.old.bytes }
        ensures read { read_of result self.new.at ≡ number_after (separator_of separator) self.old.bytes.now (cursor_at self.old.at) }
    {
        let found = self.numeral();
        self.numeral_due(found.count, separator)?;
        self.at += found.count + 1;
        Ok(found.value)
    }

    // A number, or -1.
    pub fn signed(&mut self, separator: Separator) -> Result<Option<usize>, Refusal>
        ensures kept { self.new.bytes ≡ self.old.bytes }
        ensures told { ToldRead result }
        ensures read { coded_of result self.new.at ≡ signed_after (separator_of separator) self.old.bytes.now (cursor_at self.old.at) }
    {
        if !self.next_is(b'-') {
            return Ok(Some(self.number(separator)?));
        }
        self.word(&[b'-', b'1', separator.byte()])?;
        Ok(None)
    }

    // A count of at most so many.
    pub fn count(&mut self, most: usize) -> Result<usize, Refusal>
        requires { most < 1048576 }
        ensures kept { self.new.bytes ≡ self.old.bytes }
        ensures read { read_of result self.new.at ≡ number_by (count most) same self.old.bytes.now (cursor_at self.old.at) }
    {
        let place = self.at;
        let value = self.number(Separator::LineFeed)?;
        judged(value <= most, Reason::OutsideLimits, place)?;
        Ok(value)
    }
}
