// Origin files written from their arrays, under a signer, into a buffer that is long enough.
ghost use Rattle.std.specs.Prelude.{◌≡◌, ℕ, ◌+◌, ◌*◌, ◌≤◌, length, get_or, map};
ghost use Rattle.files.specs.Below.{tabulate};
ghost use Rattle.files.specs.Bytes.{placed};
ghost use Rattle.files.specs.Clauses.{IsBelow, IsAtMost, WithinLimits, Writable, Written, OriginAt, OriginWithin};
ghost use Rattle.files.specs.Dense.{row_numbers, row_origin, held_origin};
ghost use Rattle.files.specs.Lengths.{origins_needed, origin_length};
ghost use Rattle.files.specs.OriginFile.{origin_file, variable_origin_bytes, origin_body};
ghost use Rattle.files.specs.Outcome.{overwrite};
ghost use Rattle.files.specs.Records.{record_bytes, number_bytes};

use crate::arrays::OriginArrays;
use crate::{bytes, limits, records};

// Writes numbers from `at` on, each by 2 bytes.
fn put_numbers<T: Copy + Into<usize>>(buffer: &mut [u8], at: usize, numbers: &[T])
    ghost value: { T → ℕ }
    requires converted { (x : T) (n : ℕ) → T.converts x n → n ≡ value x }
    requires room { at + 2 * length numbers.now ≤ length buffer.old }
    ensures { buffer.new ≡ placed buffer.old at (number_bytes (map value numbers.now)) }
{
    for (i, number) in numbers.iter().enumerate() {
        bytes::put_u16(buffer, at + 2 * i, (*number).into());
    }
}

impl OriginArrays {
    // How many bytes the file of the origins takes.
    #[tactic(auto, unfolding(crate::specs::Lengths::origin_needed))]
    pub fn file_length(&self) -> usize
        requires { WithinLimits self.now.variables self.now.actions }
        ensures { IsBelow result (origin_length self.now) 40000 }
    {
        16 + self.variables_length() + 2 * self.actions
    }

    // How many bytes the records of the variable origins take.
    fn variables_length(&self) -> usize
        requires { self.now.variables ≤ 64 }
        ensures { IsAtMost result (origins_needed self.now.sizes 0 self.now.variables) (520 * self.now.variables) }
    {
        let mut bytes = 0;
        for i in 0..self.variables {
            bytes += 6 + 2 * (self.sizes[i] as usize);
        }
        bytes
    }

    // Writes the file of the origins.
    pub fn write(&self, buffer: &mut [u8], signer: usize)
        requires { Writable (OriginWithin self.now.variables self.now.actions self.now.sizes) (origin_length self.now) buffer.old }
        ensures { buffer.new ≡ overwrite buffer.old (origin_file (held_origin self.now) signer) }
    {
        let at = self.put_variables(buffer);
        let actions = self.actions;
        records::put_head(buffer, at, records::ACTION_ORIGIN, 2 * actions);
        self.put_originals(buffer, at + 4);
        records::put_sign_off(buffer, at + 4 + 2 * actions, signer);
    }

    // Writes the original numbers of the actions from `at` on.
    fn put_originals(&self, buffer: &mut [u8], at: usize)
        requires { Writable (self.now.actions ≤ 512) (at + 2 * self.now.actions) buffer.old }
        ensures { buffer.new ≡ placed buffer.old at (number_bytes (row_numbers self.now.originals 0 self.now.actions)) }
    {
        put_numbers(buffer, at, &self.originals[..self.actions]);
    }

    // Writes the record of the variable origin at place `i`, and says where it ends.
    fn put_variable(&self, buffer: &mut [u8], at: usize, i: usize) -> usize
        requires { Writable (OriginAt i self.now.sizes) (at + 6 + 2 * get_or self.now.sizes i 0) buffer.old }
        ensures { Written buffer.old buffer.new at (record_bytes 6 (origin_body (row_origin self.now.numbers self.now.sizes self.now.values i))) result (at + (6 + 2 * get_or self.now.sizes i 0)) }
    {
        let size = self.sizes[i] as usize;
        records::put_head(buffer, at, records::VARIABLE_ORIGIN, 2 + 2 * size);
        bytes::put_u16(buffer, at + 4, self.numbers[i] as usize);
        let first = limits::MOST_VALUES * i;
        put_numbers(buffer, at + 6, &self.values[first..first + size]);
        at + (6 + 2 * size)
    }

    // Writes the records of the variable origins from the buffer's start on, and says where they end.
    fn put_variables(&self, buffer: &mut [u8]) -> usize
        requires { Writable (OriginWithin self.now.variables self.now.actions self.now.sizes) (origins_needed self.now.sizes 0 self.now.variables) buffer.old }
        ensures { Written buffer.old buffer.new 0 (variable_origin_bytes (tabulate self.now.variables (row_origin self.now.numbers self.now.sizes self.now.values))) result (origins_needed self.now.sizes 0 self.now.variables) }
    {
        let mut place = 0;
        for i in 0..self.variables {
            place = self.put_variable(buffer, place, i);
        }
        place
    }
}
