// Little-endian numbers in a slice of bytes.
ghost use Rattle.std.specs.Prelude.{◌≡◌, ◌+◌, ◌≤◌, length, get_or};
ghost use Rattle.files.specs.Bytes.{u16_at, u32_at, u16_bytes, u32_bytes, placed};
ghost use Rattle.files.specs.Clauses.{IsBelow};

// The byte at a place, 0 past the end.
pub fn byte_at(s: &[u8], at: usize) -> usize
    ensures { IsBelow result (get_or s.now at 0) 256 }
{
    if at < s.len() { s[at] as usize } else { 0 }
}

// Kept: byte by byte, no plainer by `from_le_bytes`, which wants all bytes within the slice.
// The numbers of 2 and of 4 bytes at a place, 0 for each byte past the end. The place is tested first:
// within the slice no sum wraps.
pub fn u16_at(s: &[u8], at: usize) -> usize
    ensures { IsBelow result (u16_at s.now at) 65536 }
{
    if s.len() <= at {
        return 0;
    }
    let lower = byte_at(s, at);
    let upper = byte_at(s, at + 1);
    lower + upper * 256
}

pub fn u32_at(s: &[u8], at: usize) -> usize
    ensures { IsBelow result (u32_at s.now at) 4294967296 }
{
    if s.len() <= at {
        return 0;
    }
    let lower = u16_at(s, at);
    let third = byte_at(s, at + 2);
    let fourth = byte_at(s, at + 3);
    lower + third * 65536 + fourth * 16777216
}

// Writes the lower 16 bits of a number.
pub(crate) fn put_u16(buffer: &mut [u8], at: usize, n: usize)
    requires { at + 2 ≤ length buffer.old }
    ensures { buffer.new ≡ placed buffer.old at (u16_bytes n) }
{
    let low = (n % 65536) as u16;
    buffer[at..at + 2].copy_from_slice(&low.to_le_bytes());
}

// Writes the lower 32 bits of a number.
pub(crate) fn put_u32(buffer: &mut [u8], at: usize, n: usize)
    requires { at + 4 ≤ length buffer.old }
    ensures { buffer.new ≡ placed buffer.old at (u32_bytes n) }
{
    let low = (n % 4294967296) as u32;
    buffer[at..at + 4].copy_from_slice(&low.to_le_bytes());
}
