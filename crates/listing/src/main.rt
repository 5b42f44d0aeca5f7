// Lists the parameters of packets by a `reader::ParameterReader`, and of those that are cut short by `reader::next_parameter`, as a caller may that keeps no
// reader: a line for each parameter with its type, its length L and where its L bytes start, and a line for how the reader ended. Then, as a log would have
// it, a line for each of some packets and nonces with the part of the packet that `echo::echo_part` hands back. The file `stdout` was written from
// document 01, and the check compares the two.
// Depends on reader, echo and the crates of their types, and on writer to build packets.
#![tactic(auto)]

use parameter::{NONCE_SIZE, Parameter};
use reader::ParameterReader;
use refusal::Refusal;
use std::io;
use writer::{put_u32, put_u64};

// The bytes of a header and two parameters of 8 bytes each.
const PACKET_SIZE: usize = 56;

// The first four bytes of a parameter: its type and its length L.
const SEQ: u32 = 0x0181_0004;

const SEQ_OF_5: u32 = 0x0181_0005;

const ACK: u32 = 0x01c1_0004;

const ACK_OF_12: u32 = 0x01c1_000c;

const ACK_OF_16: u32 = 0x01c1_0010;

const ECHO_REQUEST: u32 = 0x0381_0008;

const ECHO: u32 = 0x03c1_0008;

const ECHO_OF_7: u32 = 0x03c1_0007;

const ECHO_OF_9: u32 = 0x03c1_0009;

// The first four bytes of a header of a packet of 56 bytes, and of one of 64.
const HEADER: u32 = 0x3b06_1021;

const LONGER_HEADER: u32 = 0x3b07_1021;

// The nonce `abcdefgh`.
const NONCE: u64 = 0x6162_6364_6566_6768;

fn print_parameter(rt: &impl Print, p: Parameter) -> io::Result<()> {
    println!(rt; "{} length {} at {}", p.kind, p.len, p.body)
}

fn print_refusal(rt: &impl Print, why: Refusal) -> io::Result<()> {
    println!(rt; "refused {}", refusal::number(why))
}

// Steps through a packet, from a new reader's place to the end or to what is refused.
#[tactic(auto, using(reader::proofs::Places::less_left))]
fn list(rt: &impl Print, packet: &[u8]) -> io::Result<()> {
    let mut reader = ParameterReader::new(packet);
    loop {
        match reader.step() {
            Ok(Some(p)) => print_parameter(rt, p)?,
            Ok(None) => return println!(rt; "end"),
            Err(why) => return print_refusal(rt, why),
        }
    }
}

// The same by a place alone, with no reader.
#[tactic(auto, using(reader::proofs::Places::less_left))]
fn list_by_place(rt: &impl Print, packet: &[u8]) -> io::Result<()> {
    let mut cursor = reader::start_cursor();
    loop {
        match reader::next_parameter(packet, &mut cursor) {
            Ok(Some(p)) => print_parameter(rt, p)?,
            Ok(None) => return println!(rt; "end"),
            Err(why) => return print_refusal(rt, why),
        }
    }
}

// Lists the first so many bytes of a packet: the whole packet by a reader, and else by a place alone.
fn list_first(rt: &impl Print, packet: &[u8], size: usize) -> io::Result<()> {
    match packet.get(..size) {
        Some(whole) if size == packet.len() => list(rt, whole),
        Some(first) => list_by_place(rt, first),
        None => Ok(()),
    }
}

// Lists so many bytes of a packet whose parameters begin so, 8 bytes apart. Its header and the parameters' other bytes are 0.
fn list_two(rt: &impl Print, first: u32, second: u32, size: usize) -> io::Result<()> {
    let mut packet = [0u8; PACKET_SIZE];
    put_u32(&mut packet, 40, first);
    put_u32(&mut packet, 48, second);
    list_first(rt, &packet, size)
}

// A packet of 56 bytes whose parameter begins so, with that nonce after its type and length.
fn put_echo(packet: &mut [u8], header: u32, head: u32) {
    put_u32(packet, 0, header);
    put_u32(packet, 40, head);
    put_u64(packet, 44, NONCE);
}

// The part of a packet that echoes that nonce. The nonce is lent for this call alone, and the part for as long as the packet is.
fn part_of<'p>(packet: &'p [u8]) -> &'p [u8] {
    let mut nonce = [0u8; NONCE_SIZE];
    put_u64(&mut nonce, 0, NONCE);
    echo::echo_part(packet, &nonce)
}

fn print_part(rt: &impl Print, part: &[u8]) -> io::Result<()> {
    print!(rt; "echo [")?;
    rt.write_all(part)?;
    println!(rt; "]")
}

// Logs what a packet echoes of that nonce.
fn log_echo(rt: &impl Print, header: u32, head: u32) -> io::Result<()> {
    let mut packet = [0u8; PACKET_SIZE];
    put_echo(&mut packet, header, head);
    print_part(rt, part_of(&packet))
}

// Logs what a packet with an echo response of that nonce echoes of another one.
fn log_nonce(rt: &impl Print, nonce: &[u8]) -> io::Result<()> {
    let mut packet = [0u8; PACKET_SIZE];
    put_echo(&mut packet, HEADER, ECHO);
    print_part(rt, echo::echo_part(&packet, nonce))
}

fn main(rt: HostRuntime) -> io::Result<()> {
    list_two(&rt, SEQ, ACK, 39)?;
    list_two(&rt, SEQ, ACK, 40)?;
    list_two(&rt, SEQ, ACK, 56)?;
    list_two(&rt, ACK, ACK, 56)?;
    list_two(&rt, ACK_OF_12, SEQ, 56)?;
    // a falling type, a wrong length, a parameter that ends past the end, a torn one
    list_two(&rt, ACK, SEQ, 56)?;
    list_two(&rt, SEQ_OF_5, ACK, 56)?;
    list_two(&rt, ACK_OF_16, ACK, 56)?;
    list_two(&rt, SEQ, ACK, 52)?;
    // an echo response of the nonce, of another length, no echo response, and a packet that earns refusal 3
    log_echo(&rt, HEADER, ECHO)?;
    log_echo(&rt, HEADER, ECHO_OF_7)?;
    log_echo(&rt, HEADER, ECHO_OF_9)?;
    log_echo(&rt, HEADER, ECHO_REQUEST)?;
    log_echo(&rt, LONGER_HEADER, ECHO)?;
    // the same nonce, another, and nonces that are not eight bytes long
    log_nonce(&rt, b"abcdefgh")?;
    log_nonce(&rt, b"abcdefgi")?;
    log_nonce(&rt, b"abcdefg")?;
    log_nonce(&rt, b"abcdefgh\0")?;
    log_nonce(&rt, b"abcdefghabcdefgh")?;
    Ok(())
}
