// Bytes, and big-endian numbers, written into a lent buffer, total for every place. Depends on octets, for its definitions alone.
#![tactic(auto)]

ghost use Rattle.std.specs.Prelude.{◌≡◌, ◌+◌, leb, length};
ghost use Rattle.octets.specs.Written.{bytes_of};
ghost use Rattle.writer.specs.Writes.{written_at};

// Whether so many bytes at `at` end within the buffer.
pub fn has_room(buffer: &[u8], at: usize, size: usize) -> bool
    ensures { result ≡ leb (at + size) (length buffer.now) }
{
    size <= buffer.len() && at <= buffer.len() - size
}

// Writes bytes at `at`; nothing where the buffer ends before they do.
#[tactic(auto, using(crate::proofs::Writes::written_beyond, crate::proofs::Writes::written_part))]
pub fn put_bytes(buffer: &mut [u8], at: usize, bytes: &[u8])
    ensures { buffer.new ≡ written_at at bytes.now buffer.old }
{
    if has_room(buffer, at, bytes.len()) {
        buffer[at..at + bytes.len()].copy_from_slice(bytes);
    }
}

// Writes a number in the two bytes at `at`; nothing where the buffer ends before they do. This one and the two below are a line each over `put_bytes`, since
// crates above and pages call them so.
#[tactic(auto, unfolding(octets::specs::Written::bytes_of))]
pub fn put_u16(buffer: &mut [u8], at: usize, value: u16)
    ensures { buffer.new ≡ written_at at (bytes_of 2 value) buffer.old }
{
    put_bytes(buffer, at, &u16::to_be_bytes(value));
}

// The same in four bytes.
#[tactic(auto, unfolding(octets::specs::Written::bytes_of))]
pub fn put_u32(buffer: &mut [u8], at: usize, value: u32)
    ensures { buffer.new ≡ written_at at (bytes_of 4 value) buffer.old }
{
    put_bytes(buffer, at, &u32::to_be_bytes(value));
}

// The same in eight bytes.
#[tactic(auto, unfolding(octets::specs::Written::bytes_of))]
pub fn put_u64(buffer: &mut [u8], at: usize, value: u64)
    ensures { buffer.new ≡ written_at at (bytes_of 8 value) buffer.old }
{
    put_bytes(buffer, at, &u64::to_be_bytes(value));
}
