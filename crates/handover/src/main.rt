// Two of our associations change addresses with each other, by the public calls alone, and every packet is printed as it goes over. It is the figure of RFC
// 8046, section 3.2.1, run twice: first one side moves, and then the other.
//
//     mobile host                                        peer host
//         UPDATE(ESP_INFO, LOCATOR_SET, SEQ)          -->
//         <--     UPDATE(ESP_INFO, SEQ, ACK, ECHO_REQUEST)
//         UPDATE(ACK, ECHO_RESPONSE)                  -->
//
// Before the answer the peer host may not send payload to the new address: it has no credit. After it, it may. HMAC and signature stay with the host. Depends
// on announce, message, payload, association and the crates of their types, and on writer and text to build packets and print them.
#![tactic(auto)]

use address::Address;
use announcement::OwnLocator;
use association::Association;
use frame::HEADER_SIZE;
use judge::REPLY_ROOM;
use locator_set::SET_LIMIT;
use reply_form::NONCE_COUNT;
use std::io;
use writer::{put_bytes, put_u32};

// The most that a packet takes here: a header and the longest reply.
const PACKET_ROOM: usize = 424;

// Its bytes in hex.
const LINE_ROOM: usize = 848;

// The header's first four bytes, but for its length: next header 59, UPDATE, version 2. The rest of the header stays 0.
const HEADER: u32 = 0x3b00_1021;

// The first half of each address: 2001:db8::/64.
const PREFIX: u64 = 0x2001_0db8_0000_0000;

// A side: its name, and its association with the other.
#[derive(Clone, Copy)]
struct Side {
    name: &'static str,
    association: Association,
}

// A packet: the first `size` of the bytes.
#[derive(Clone, Copy)]
struct Packet {
    bytes: [u8; PACKET_ROOM],
    size: usize,
}

// Prints who sends what: the packet, two hex digits for each byte, in one write.
fn say_sent(rt: &impl Print, who: Side, what: &str, packet: &Packet) -> io::Result<()> {
    print!(rt; "{}{what}\n    ", who.name)?;
    let mut line = [0u8; LINE_ROOM];
    let end = text::put_hex(&mut line, 0, sent(packet));
    rt.write_all(line.get(..end).unwrap_or_default())?;
    println!(rt; "")
}

// The bytes that are sent.
fn sent(packet: &Packet) -> &[u8] {
    packet.bytes.get(..packet.size).unwrap_or_default()
}

// The address 2001:db8::low.
fn address_of(low: u64) -> Address {
    Address { high: PREFIX, low }
}

// Eight nonces. A host draws them at random, for each message anew.
const NONCES: [u64; NONCE_COUNT] = [0x0102_0304_0506_0708, 12, 13, 14, 15, 16, 17, 18];

// Parameters, of which so many bytes are written, behind a header; no bytes where there are fewer.
fn wrap(parameters: &[u8; REPLY_ROOM], count: usize) -> Packet {
    let mut bytes = [0u8; PACKET_ROOM];
    let Some(written) = parameters.get(..count) else {
        return Packet { bytes, size: 0 };
    };
    let size = HEADER_SIZE + count;
    put_u32(&mut bytes, 0, HEADER + (size / 8 - 1) as u32 * 65536);
    put_bytes(&mut bytes, HEADER_SIZE, written);
    Packet { bytes, size }
}

// One side announces the address 2001:db8::low, with this inbound SPI: the side after it, and the packet that it sends.
fn announce(side: Side, low: u64, inbound: u32) -> (Side, Packet) {
    let entry = OwnLocator {
        address: address_of(low),
        lifetime: 600,
        kind: 0,
        traffic: 0,
        preferred: true,
    };
    let list = [entry; SET_LIMIT];
    let mut parameters = [0u8; REPLY_ROOM];
    let answer = announce::announce(side.association, list, 1, inbound, 0, &mut parameters);
    let association = answer.association;
    (
        Side {
            association,
            ..side
        },
        wrap(&parameters, answer.written),
    )
}

// One side hears a packet, marked authentic: the side after it, and its reply.
fn hear(side: Side, packet: &Packet) -> (Side, Packet) {
    let mut parameters = [0u8; REPLY_ROOM];
    let answer = message::receive(
        side.association,
        sent(packet),
        true,
        NONCES,
        &mut parameters,
    );
    let association = answer.association;
    (
        Side {
            association,
            ..side
        },
        wrap(&parameters, answer.written),
    )
}

// Prints whether a payload of 1,000 bytes may go out, and to which slot.
fn say_payload(rt: &impl Print, side: Side) -> io::Result<()> {
    let name = side.name;
    match payload::send(side.association, 1000).outcome {
        Ok(slot) => { println!(rt; "{name} sends payload to the address in slot {slot}") }
        Err(why) => { println!(rt; "{name} sends no payload: refused {}", refusal::number(why)) }
    }
}

// The mobile host moves to 2001:db8::low, and keeps its inbound SPI. The two sides after that.
fn change(
    rt: &impl Print,
    mobile: Side,
    peer: Side,
    low: u64,
    inbound: u32,
) -> io::Result<(Side, Side)> {
    let (mobile, packet) = announce(mobile, low, inbound);
    say_sent(rt, mobile, ": UPDATE(ESP_INFO, LOCATOR_SET, SEQ)", &packet)?;
    let (peer, packet) = hear(peer, &packet);
    say_sent(
        rt,
        peer,
        ": UPDATE(ESP_INFO, SEQ, ACK, ECHO_REQUEST)",
        &packet,
    )?;
    say_payload(rt, peer)?;
    let (mobile, packet) = hear(mobile, &packet);
    say_sent(rt, mobile, ": UPDATE(ACK, ECHO_RESPONSE)", &packet)?;
    let (peer, _) = hear(peer, &packet);
    say_payload(rt, peer)?;
    Ok((mobile, peer))
}

fn main(rt: HostRuntime) -> io::Result<()> {
    let one = Side {
        name: "one",
        association: association::start(100, 0x2001, 0x1001, address_of(2), 600).association,
    };
    let other = Side {
        name: "other",
        association: association::start(100, 0x1001, 0x2001, address_of(1), 600).association,
    };
    let (one, other) = change(&rt, one, other, 3, 0x1001)?;
    change(&rt, other, one, 4, 0x2001)?;
    Ok(())
}
