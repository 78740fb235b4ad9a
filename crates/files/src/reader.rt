// A reader of records, and the step from record to record.
ghost use Rattle.std.specs.Prelude.{◌+◌, ◌*◌, ◌<◌};
ghost use Rattle.files.specs.Clauses.{IsBelow, IsAtMost, Moved};
ghost use Rattle.files.specs.Records.{offset_limit, record_end, records_end};

use crate::records;

// The file being read and the offset reached.
#[derive(Clone, Copy)]
pub(crate) struct Reader<'a> {
    pub(crate) file: &'a [u8],
    pub(crate) at: usize,
}

impl<'a> Reader<'a> {
    // The reader behind the record at its offset.
    pub(crate) fn past(self) -> Reader<'a>
        requires { self.at < offset_limit }
        ensures { Moved self.entry.file self.entry.at result }
    {
        Reader {
            file: self.file,
            at: records::record_end(self.file, self.at),
        }
    }
}

// Where the record after the one at `at` stands.
pub fn record_after(file: &[u8], at: usize) -> usize
    requires { at < offset_limit }
    ensures { IsBelow result (record_end file.now at) (at + 65540) }
{
    Reader { file, at }.past().at
}

// Where the record after `count` records from `at` on stands.
pub(crate) fn records_after(file: &[u8], at: usize, count: usize) -> usize
    requires { at + 65540 * count < offset_limit }
    ensures { IsAtMost result (records_end file.now at count) (at + 65540 * count) }
{
    let mut reader = Reader { file, at };
    for _ in 0..count {
        reader = reader.past();
    }
    reader.at
}
