// Text in a lent buffer, total for every place: bytes as they are, bytes in hex, and numbers in decimal. Depends on writer.
// Each function answers where the next text goes. Where a text does not fit whole, nothing is written and the place stays.
#![tactic(auto)]

ghost use Rattle.std.specs.Prelude.{◌≡◌, ◌<◌, [], ◌∷◌};
ghost use Rattle.writer.specs.Writes.{written_at};
ghost use Rattle.text.specs.Texts.{glyph_of, hex_of, decimal_of, end_of};

use writer::has_room;

// The most digits of a number of 64 bits.
const PLACES: usize = 20;

// The ASCII code of a digit.
fn glyph(digit: u8) -> u8
    requires { digit < 16 }
    ensures { result ≡ glyph_of digit }
{
    if digit < 10 {
        b'0' + digit
    } else {
        b'a' - 10 + digit
    }
}

// The two hex digits of a byte.
#[tactic(auto, unfolding(crate::specs::Texts::hex_of))]
fn hex_digits(byte: u8) -> [u8; 2]
    ensures { result ≡ hex_of (byte ∷ []) }
{
    [glyph(byte / 16), glyph(byte % 16)]
}

// Writes a text as it is.
#[tactic(auto, using(crate::proofs::Puts::plain_laws, std::proofs::lemmas::Bool::Decides::nat_tests))]
pub fn put(out: &mut [u8], at: usize, text: &[u8]) -> usize
    ensures { (out.new ≡ written_at at text.now out.old) × (result ≡ end_of at text.now out.old) }
{
    if !has_room(out, at, text.len()) {
        return at;
    }
    // Byte by byte: a copy of a slice is a `memmove`, which the archive for C would need from outside.
    for (i, byte) in text.iter().enumerate() {
        out[at + i] = *byte;
    }
    at + text.len()
}

// Writes bytes in hex, two digits each.
#[tactic(auto, using(crate::proofs::Puts::hex_laws, std::proofs::lemmas::Bool::Decides::nat_tests))]
pub fn put_hex(out: &mut [u8], at: usize, bytes: &[u8]) -> usize
    ensures { (out.new ≡ written_at at (hex_of bytes.now) out.old) × (result ≡ end_of at (hex_of bytes.now) out.old) }
{
    if !has_room(out, at, 2 * bytes.len()) {
        return at;
    }
    // The room is tested once: a call of `put` for each byte would test it each time, and takes seven to twelve times the instructions.
    for (i, byte) in bytes.iter().enumerate() {
        let [high, low] = hex_digits(*byte);
        out[at + 2 * i] = high;
        out[at + 2 * i + 1] = low;
    }
    at + 2 * bytes.len()
}

// Writes a number in decimal.
pub fn put_decimal(out: &mut [u8], at: usize, n: u64) -> usize
    ensures { (out.new ≡ written_at at (decimal_of n) out.old) × (result ≡ end_of at (decimal_of n) out.old) }
{
    let mut places = [b'0'; PLACES];
    let mut first = PLACES - 1;
    places[first] = glyph((n % 10) as u8);
    let mut rest = n / 10;
    // A digit for each turn, the last one first: how many there are shows only at the end, so a loop over the places would be no plainer.
    while 0 < rest {
        first -= 1;
        places[first] = glyph((rest % 10) as u8);
        rest /= 10;
    }
    put(out, at, &places[first..])
}
