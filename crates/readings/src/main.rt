// Reads packets in compact form from standard input and prints what `exported::nisgrove_read` answers to them. The form: a byte, the number of base
// packets; each base packet after its length in 16 bits; then edits of 6 bytes up to the end, in the order of their base packets. An edit is the index of a
// base packet, how many of its bytes are taken, an offset, and a mask for the byte at the offset; it stands for the packet that those bytes make. For each
// base packet a line has the answers to the packets of its edits as one number, and the last line has the number of all edits. A file of another form ends
// in the line `malformed`.
// Depends on exported and on octets.
#![tactic(auto)]

ghost use Rattle.std.specs.Prelude.{◌≤◌, length, IfOk, IfSome};

use std::io;
use std::io::Read;

// The most bytes of a file.
const FILE_ROOM: usize = 65536;

// The most base packets, and the longest.
const BASE_LIMIT: usize = 60;

const LONGEST: usize = 2048;

// The bytes of a base packet's length, and of an edit.
const LENGTH_SIZE: usize = 2;

const EDIT_SIZE: usize = 6;

// A base packet: where it starts and where it ends.
#[derive(Clone, Copy)]
struct Base {
    start: usize,
    end: usize,
}

// The index of a base packet, how many of its bytes are taken, and which of them is changed by which mask.
#[derive(Clone, Copy)]
struct Edit {
    index: usize,
    taken: usize,
    offset: usize,
    mask: u8,
}

// The base packet whose length stands at `at`, where it is whole.
fn base_at(s: &[u8], at: usize) -> Option<Base>
    ensures { IfSome result (λ base. (base.start ≤ base.end) × (base.end ≤ length s.now)) }
{
    let len = octets::u16_at(s, at);
    let start = at.checked_add(LENGTH_SIZE)?;
    let end = start.checked_add(len)?;
    (len <= LONGEST && end <= s.len()).then_some(Base { start, end })
}

// How many base packets a file has, and where the edits begin after them; none where the base packets do not fit.
fn bases_in(s: &[u8]) -> Option<(usize, usize)>
    ensures { IfSome result (λ found. found.1 ≤ length s.now) }
{
    let count = usize::from(*s.first()?);
    if BASE_LIMIT < count {
        return None;
    }
    let mut at = 1;
    for _ in 0..count {
        at = base_at(s, at)?.end;
    }
    Some((count, at))
}

// The edit in these bytes.
fn edit_of(bytes: &[u8; EDIT_SIZE]) -> Edit {
    let [index, taken_high, taken_low, offset_high, offset_low, mask] = *bytes;
    Edit {
        index: usize::from(index),
        taken: usize::from(u16::from_be_bytes([taken_high, taken_low])),
        offset: usize::from(u16::from_be_bytes([offset_high, offset_low])),
        mask,
    }
}

// Applies an edit's mask to the bytes taken. An offset past them changes nothing, and applying it twice does not either.
fn flip(packet: &mut [u8], edit: Edit) {
    if let Some(byte) = packet.get_mut(edit.offset) {
        *byte ^= edit.mask;
    }
}

// What is read of the packet that an edit stands for. The bytes taken are edited in their place, and then put back.
fn read_edited(packet: &mut [u8], edit: Edit) -> u64 {
    flip(packet, edit);
    let number = exported::nisgrove_read(packet);
    flip(packet, edit);
    number
}

// The packets of one base packet's edits, with which the bytes begin, as one number, and the bytes after those edits.
fn fold_edits<'e>(base: &mut [u8], index: usize, edits: &'e [u8]) -> (u64, &'e [u8])
    ensures { length result.1.now ≤ length edits.now }
{
    let mut number = 0;
    let mut rest = edits;
    while let Some((bytes, after)) = rest.split_first_chunk::<EDIT_SIZE>() {
        let edit = edit_of(bytes);
        if edit.index != index || base.len() < edit.taken {
            break;
        }
        number = exported::mix(number, read_edited(&mut base[..edit.taken], edit));
        rest = after;
    }
    (number, rest)
}

fn print_line(rt: &impl Print, number: u64) -> io::Result<()> {
    println!(rt; "{number}")
}

fn print_malformed(rt: &impl Print) -> io::Result<()> {
    println!(rt; "malformed")
}

// Prints a line for each base packet, and answers what is left of the edits after those that are theirs in order.
fn print_bases<'e>(
    rt: &impl Print,
    s: &mut [u8],
    count: usize,
    edits: &'e [u8],
) -> io::Result<&'e [u8]>
    ensures { IfOk result (λ rest. length rest.now ≤ length edits.now) }
{
    let mut rest = edits;
    let mut at = 1;
    for index in 0..count {
        let Some(base) = base_at(s, at) else {
            break;
        };
        let (number, after) = fold_edits(&mut s[base.start..base.end], index, rest);
        print_line(rt, number)?;
        rest = after;
        at = base.end;
    }
    Ok(rest)
}

// Prints the lines of a file. Edits that are left after the last base packet's are torn, out of order, or of no base packet or more bytes than it has.
fn print_file(rt: &impl Print, s: &mut [u8]) -> io::Result<()> {
    let Some((count, place)) = bases_in(s) else {
        return print_malformed(rt);
    };
    let (bases, edits) = s.split_at_mut(place);
    let rest = print_bases(rt, bases, count, edits)?;
    if !rest.is_empty() {
        return print_malformed(rt);
    }
    print_line(rt, (edits.len() / EDIT_SIZE) as u64)
}

// Reads until the buffer is full or the input ends, and answers how many bytes it read. No call of std does: `read_exact` asks for all of it, and `read_to_end`
// takes memory.
fn read_full(input: &mut impl Read, buffer: &mut [u8]) -> io::Result<usize>
    ensures { IfOk result (λ count. count ≤ length buffer.new) }
{
    let mut filled = 0;
    while filled < buffer.len() {
        let count = input.read(&mut buffer[filled..])?;
        if count == 0 {
            break;
        }
        filled += count;
    }
    Ok(filled)
}

fn main(rt: HostRuntime) -> io::Result<()> {
    let mut input = rt.stdin();
    let mut held = [0u8; FILE_ROOM];
    let count = read_full(&mut input, &mut held)?;
    let mut more = [0u8; 1];
    if 0 < input.read(&mut more)? {
        return print_malformed(&rt);
    }
    print_file(&rt, &mut held[..count])
}
