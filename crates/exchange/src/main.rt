// Runs an exchange with one peer by the public calls `association::start` and `message::receive`, and prints a line for each call.
// It runs the two cases of document 01 that are not starred:
// - "Peer ID 7, own ID 3, inbound SPI 0x1001, nonce 0102030405060708, one check, whole reply in hex: ..";
// - "Start at ID none, Move 0 accepted; Move 0 again Repeated; after Move 5, Move 4 gives 7".
// The file `stdout` was written from document 01, and the check compares the two. Depends on message, association and the crates of their types,
// and on writer to build packets.
#![tactic(auto)]

use address::Address;
use association::{Answer, Association};
use judge::REPLY_ROOM;
use refusal::Refusal;
use reply_form::NONCE_COUNT;
use std::{array, io};
use update::{MessageAnswer, Received};
use writer::{put_u32, put_u64};

const OUTBOUND_SPI: u32 = 0x2001;

const INBOUND_SPI: u32 = 0x1001;

const LIFETIME: u32 = 60;

// The first half of each address: 2001:db8::/64.
const PREFIX: u64 = 0x2001_0db8_0000_0000;

// The bytes of a Move with one locator.
const MOVE_SIZE: usize = 96;

// This file builds its packets by itself, as `host` does, which README shows whole.
// Writes ESP_INFO with KEYMAT Index 7, and the outbound SPI as the old one and as the new one. Here and below, a parameter's first four bytes are
// its type and its length.
fn put_esp_info(packet: &mut [u8]) {
    put_u32(packet, 40, 0x0041_000c);
    put_u32(packet, 44, 7);
    put_u32(packet, 48, OUTBOUND_SPI);
    put_u32(packet, 52, OUTBOUND_SPI);
}

// Writes LOCATOR_SET with one locator, 2001:db8::low: traffic type 0, locator type 0, length 4, without P.
fn put_locator_set(packet: &mut [u8], low: u64) {
    put_u32(packet, 56, 0x00c1_0018);
    put_u32(packet, 60, 0x0000_0400);
    put_u32(packet, 64, LIFETIME);
    put_u64(packet, 68, PREFIX);
    put_u64(packet, 76, low);
}

// Writes SEQ.
fn put_seq(packet: &mut [u8], id: u32) {
    put_u32(packet, 88, 0x0181_0004);
    put_u32(packet, 92, id);
}

// Writes into zeroed bytes a Move with an Update ID that lists 2001:db8::low. Of the header, next header 59, header length 11, packet type 16
// and the version are written; the rest of it and the padding stay 0.
fn make_move(packet: &mut [u8], id: u32, low: u64) {
    put_u32(packet, 0, 0x3b0b_1021);
    put_esp_info(packet);
    put_locator_set(packet, low);
    put_seq(packet, id);
}

// Eight nonces: this one and the seven numbers after it.
fn nonces_from(first: u64) -> [u64; NONCE_COUNT] {
    array::from_fn(|k| first.wrapping_add(k as u64))
}

// Prints so many bytes from a buffer's start on, two hex digits each; nothing where the buffer holds fewer.
fn print_bytes(rt: &impl Print, buffer: &[u8], count: usize) -> io::Result<()> {
    for byte in buffer.get(..count).unwrap_or_default() {
        print!(rt; "{byte:02x}")?;
    }
    Ok(())
}

// Prints the end of a refused call's line.
fn print_refusal(rt: &impl Print, why: Refusal) -> io::Result<()> {
    println!(rt; " refused {}", refusal::number(why))
}

// Prints the end of an answered message's line: what the answer tells, and the reply's bytes where there are any.
fn print_reply(rt: &impl Print, answer: &MessageAnswer, buffer: &[u8]) -> io::Result<()> {
    let written = answer.written;
    print!(rt;
        " reply {written} checks {} keymat {}",
        answer.checks, answer.keymat
    )?;
    if 0 < written {
        print!(rt; " ")?;
        print_bytes(rt, buffer, written)?;
    }
    println!(rt; "")
}

fn print_message(rt: &impl Print, answer: &MessageAnswer, buffer: &[u8]) -> io::Result<()> {
    print!(rt; "message")?;
    match answer.outcome {
        Ok(Received::Moved | Received::Replied | Received::Responded) => {
            print!(rt; " accepted")?;
            print_reply(rt, answer, buffer)
        }
        Ok(Received::Repeated) => {
            print!(rt; " repeated")?;
            print_reply(rt, answer, buffer)
        }
        Err(why) => print_refusal(rt, why),
    }
}

fn print_start(rt: &impl Print, answer: &Answer) -> io::Result<()> {
    print!(rt; "start")?;
    match answer.outcome {
        Ok(()) => println!(rt; " accepted"),
        Err(why) => print_refusal(rt, why),
    }
}

// Starts an association at time 100 with the address 2001:db8::1, and prints the answer.
fn start(rt: &impl Print) -> io::Result<Association> {
    let address = Address {
        high: PREFIX,
        low: 1,
    };
    let answer = association::start(100, OUTBOUND_SPI, INBOUND_SPI, address, LIFETIME);
    print_start(rt, &answer)?;
    Ok(answer.association)
}

// Hands in an authentic Move with an Update ID that lists 2001:db8::low and offers eight nonces from the first on, and prints the answer.
fn receive_move(
    rt: &impl Print,
    a: Association,
    id: u32,
    low: u64,
    nonce: u64,
) -> io::Result<Association> {
    let mut packet = [0u8; MOVE_SIZE];
    make_move(&mut packet, id, low);
    let mut buffer = [0u8; REPLY_ROOM];
    let answer = message::receive(a, &packet, true, nonces_from(nonce), &mut buffer);
    print_message(rt, &answer, &buffer)?;
    Ok(answer.association)
}

// Moves 4, 5 and 6 use up the own Update IDs 0, 1 and 2, so that the check for Move 7 has own ID 3.
fn run_whole_reply(rt: &impl Print) -> io::Result<()> {
    let a = start(rt)?;
    let a = receive_move(rt, a, 4, 2, 0x1111_1111_1111_1100)?;
    let a = receive_move(rt, a, 5, 3, 0x2222_2222_2222_2200)?;
    let a = receive_move(rt, a, 6, 4, 0x3333_3333_3333_3300)?;
    receive_move(rt, a, 7, 5, 0x0102_0304_0506_0708)?;
    Ok(())
}

fn run_update_ids(rt: &impl Print) -> io::Result<()> {
    let a = start(rt)?;
    let a = receive_move(rt, a, 0, 2, 0x1111_1111_1111_1100)?;
    let a = receive_move(rt, a, 0, 2, 0x2222_2222_2222_2200)?;
    let a = receive_move(rt, a, 5, 3, 0x3333_3333_3333_3300)?;
    receive_move(rt, a, 4, 4, 0x4444_4444_4444_4400)?;
    Ok(())
}

fn main(rt: HostRuntime) -> io::Result<()> {
    run_whole_reply(&rt)?;
    run_update_ids(&rt)
}
