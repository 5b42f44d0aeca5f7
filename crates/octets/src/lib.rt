// Big-endian numbers in a slice of bytes, total for every place. Depends on nothing.
#![tactic(auto)]

ghost use Rattle.std.specs.Prelude.{◌≡◌, ◌+◌, ◌≤◌, ◌<◌, length, take, drop, MatchOption};
ghost use Rattle.octets.specs.Numbers.{number_at};

// A byte as a wider number, with the bound that keeps a sum of such numbers, or a place computed from one, from wrapping.
pub fn byte(x: u8) -> usize
    ensures { (result ≡ x) × (result < 256) }
{
    usize::from(x)
}

// The N bytes at `at`, where s does not end before they do.
fn bytes_at<const N: usize>(s: &[u8], at: usize) -> Option<&[u8; N]>
    ensures { MatchOption result (length s.now < at + N) (λ bytes. (at + N ≤ length s.now) × (bytes.now ≡ take N (drop at s.now))) }
{
    s.get(at..)?.first_chunk::<N>()
}

// The number in the two bytes at `at`, 0 where s ends before they do. This one and the two below are a line each over `bytes_at`, since crates above and pages
// call them so.
pub fn u16_at(s: &[u8], at: usize) -> usize
    ensures { (result ≡ number_at s.now at 2) × (result < 65536) }
{
    bytes_at(s, at).map_or(0, |bytes| usize::from(u16::from_be_bytes(*bytes)))
}

// The same in four bytes.
pub fn u32_at(s: &[u8], at: usize) -> u32
    ensures { result ≡ number_at s.now at 4 }
{
    bytes_at(s, at).map_or(0, |bytes| u32::from_be_bytes(*bytes))
}

// The same in eight bytes.
pub fn u64_at(s: &[u8], at: usize) -> u64
    ensures { result ≡ number_at s.now at 8 }
{
    bytes_at(s, at).map_or(0, |bytes| u64::from_be_bytes(*bytes))
}
