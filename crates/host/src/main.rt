// A host that makes the six calls, one after another, on one association. README.md shows this file whole.
// Depends on association, message, payload, clock, announce and the crates of their types, and on writer to build a packet.
#![tactic(auto)]

use address::Address;
use announcement::OwnLocator;
use association::{Answer, Association};
use judge::REPLY_ROOM;
use locator_set::SET_LIMIT;
use refusal::Refusal;
use resend::TICK_ROOM;
use std::io;
use writer::{put_u32, put_u64};

// The bytes of an UPDATE that announces one address.
const UPDATE_SIZE: usize = 96;

// ESP_INFO: KEYMAT Index 7, and the outbound SPI as OLD SPI and as NEW SPI.
fn put_esp_info(packet: &mut [u8]) {
    put_u32(packet, 40, 0x0041_000c);
    put_u32(packet, 44, 7);
    put_u32(packet, 48, 0x2001);
    put_u32(packet, 52, 0x2001);
}

// LOCATOR_SET: the address 2001:db8::2 for all traffic, for 60 seconds.
fn put_locator_set(packet: &mut [u8]) {
    put_u32(packet, 56, 0x00c1_0018);
    put_u32(packet, 60, 0x0000_0400);
    put_u32(packet, 64, 60);
    put_u64(packet, 68, 0x2001_0db8_0000_0000);
    put_u64(packet, 76, 2);
}

// An UPDATE in which the peer announces that address, with Update ID 7 in SEQ. A host has it from the network.
fn put_update(packet: &mut [u8]) {
    put_u32(packet, 0, 0x3b0b_1021);
    put_esp_info(packet);
    put_locator_set(packet);
    put_u32(packet, 88, 0x0181_0004);
    put_u32(packet, 92, 7);
}

// A refused call gives its reason and leaves the association as it was.
fn say_refused(rt: &impl Print, why: Refusal) -> io::Result<()> {
    println!(rt; "refused {}", refusal::number(why))
}

// What a start and an arrival answer. The host keeps the association for the next call.
fn kept(rt: &impl Print, answer: Answer) -> io::Result<Association> {
    match answer.outcome {
        Ok(()) => println!(rt; "accepted")?,
        Err(why) => say_refused(rt, why)?,
    }
    Ok(answer.association)
}

// A message: the packet, the host's word that HMAC, signature and checksum hold, eight random nonces, and a buffer for the reply.
fn handle_update(
    rt: &impl Print,
    a: Association,
    packet: &[u8],
    authentic: bool,
) -> io::Result<Association> {
    let nonces = [11, 12, 13, 14, 15, 16, 17, 18];
    let mut reply = [0u8; REPLY_ROOM];
    let answer = message::receive(a, packet, authentic, nonces, &mut reply);
    match answer.outcome {
        Ok(_) => println!(rt; "bytes of the reply to send back: {}", answer.written)?,
        Err(why) => say_refused(rt, why)?,
    }
    Ok(answer.association)
}

// Our own addresses, when they change: a list of which the first entries count, the new inbound SPI, a KEYMAT Index, and a buffer for the parameters of the
// UPDATE to send. 256 bytes hold every announcement.
fn announce(rt: &impl Print, a: Association) -> io::Result<Association> {
    let entry = OwnLocator {
        address: Address {
            high: 0x2001_0db8_0000_0000,
            low: 9,
        },
        lifetime: 60,
        kind: 0,
        traffic: 0,
        preferred: true,
    };
    let list = [entry; SET_LIMIT];
    let mut parameters = [0u8; 256];
    let answer = announce::announce(a, list, 1, 0x1002, 0, &mut parameters);
    match answer.outcome {
        Ok(()) => println!(rt; "bytes of parameters to send: {}", answer.written)?,
        Err(why) => say_refused(rt, why)?,
    }
    Ok(answer.association)
}

// The time, every second or so: a buffer for the checks that are sent again, 40 bytes each, which the host sends as packets of their own.
fn tick(rt: &impl Print, a: Association, time: u64) -> io::Result<Association> {
    let mut checks = [0u8; TICK_ROOM];
    let answer = clock::tick(a, time, &mut checks);
    match answer.outcome {
        Ok(()) => println!(rt; "bytes of checks to send again: {}", answer.written)?,
        Err(why) => say_refused(rt, why)?,
    }
    Ok(answer.association)
}

// A payload of a size: the slot whose address it may go to.
fn send(rt: &impl Print, a: Association, size: u64) -> io::Result<Association> {
    let answer = payload::send(a, size);
    match answer.outcome {
        Ok(slot) => println!(rt; "send to the address in slot {slot}")?,
        Err(why) => say_refused(rt, why)?,
    }
    Ok(answer.association)
}

fn main(rt: HostRuntime) -> io::Result<()> {
    let peer = Address {
        high: 0x2001_0db8_0000_0000,
        low: 1,
    };
    let a = kept(&rt, association::start(100, 0x2001, 0x1001, peer, 60))?;
    let a = kept(&rt, payload::arrival(a, 1500))?;
    let mut packet = [0u8; UPDATE_SIZE];
    put_update(&mut packet);
    let a = handle_update(&rt, a, &packet, true)?;
    let a = send(&rt, a, 1000)?;
    let a = send(&rt, a, 1000)?;
    let a = tick(&rt, a, 105)?;
    announce(&rt, a)?;
    Ok(())
}
