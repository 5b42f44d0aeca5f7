// What a packet says: refusals 3 to 6, or a Move, a Reply or a Check with all that the layers above ask of it, so that none of them reads packet bytes.
// Depends on frame, parameter, locator_set, octets, refusal.
#![tactic(auto)]

ghost use Rattle.std.specs.Prelude.{◌≡◌, ◌+◌, ◌≤◌, length};
ghost use Rattle.packet.specs.Kinds.{is_move, is_reply, is_check};
ghost use Rattle.packet.specs.Readings.{echo_of, fields_of, set_bytes, move_of, opaque_of, kind_of, reading_of};
ghost use Rattle.packet.specs.Parts.{Parts};

use frame::{Occurrence, Survey};
use locator_set::LocatorSet;
use refusal::Refusal;

// An echo response: none, the nonce of one that is 8 bytes long, or one of another length, which matches no nonce.
// Its own enum, with three cases where an Option has two: one of another length is not none.
#[derive(Clone, Copy, PartialEq, Eq)]
pub enum EchoResponse {
    Absent,
    Nonce(u64),
    OtherLength,
}

// What a Move says besides its locators: KEYMAT Index, OLD SPI, NEW SPI, Update ID, and its echo response.
#[derive(Clone, Copy)]
pub struct MoveFields {
    pub keymat: u16,
    pub old: u32,
    pub new: u32,
    pub id: u32,
    pub echo: EchoResponse,
}

// What a Check says: its Update ID, and where its opaque bytes stand in the packet and how many they are.
#[derive(Clone, Copy)]
pub struct CheckFields {
    pub id: u32,
    pub body: usize,
    pub len: usize,
}

// Move and Reply are document 01's terms for kinds of message, and Check is order 1's: the peer's check of one of our addresses.
#[derive(Clone, Copy)]
pub enum Message {
    Move(MoveFields, LocatorSet),
    Reply(EchoResponse),
    PeerCheck(CheckFields),
}

// The first echo response.
fn echo_of(packet: &[u8], echo: Occurrence) -> EchoResponse
    ensures { result ≡ echo_of packet.now echo }
{
    if echo.times == 0 {
        EchoResponse::Absent
    } else if echo.len == parameter::NONCE_SIZE {
        EchoResponse::Nonce(octets::u64_at(packet, echo.body))
    } else {
        EchoResponse::OtherLength
    }
}

// What a Move says besides its locators.
fn fields_of(packet: &[u8], seen: &Survey) -> MoveFields
    requires { seen.now.esp.body ≤ length packet.now }
    ensures { result ≡ fields_of packet.now seen.now }
{
    let at = seen.esp.body;
    MoveFields {
        keymat: octets::u16_at(packet, at + 2) as u16,
        old: octets::u32_at(packet, at + 4),
        new: octets::u32_at(packet, at + 8),
        id: octets::u32_at(packet, seen.seq.body),
        echo: echo_of(packet, seen.echo),
    }
}

// The bytes of the first LOCATOR_SET.
fn set_bytes<'p>(packet: &'p [u8], seen: &Survey) -> &'p [u8]
    requires { seen.now.set.body + seen.now.set.len ≤ length packet.now }
    ensures { result.now ≡ set_bytes packet.now seen.now }
{
    &packet[seen.set.body..seen.set.body + seen.set.len]
}

// A Move, or refusal 6.
#[tactic(auto, unfolding(locator_set::specs::Sets::set_of))]
fn read_move(packet: &[u8], seen: &Survey) -> Result<Message, Refusal>
    requires { Parts packet.now seen.now }
    ensures { result ≡ move_of packet.now seen.now }
{
    let set = locator_set::read_set(set_bytes(packet, seen))?;
    Ok(Message::Move(fields_of(packet, seen), set))
}

// The parameters are those of a Move.
#[tactic(auto, unfolding(crate::specs::Kinds::is_move))]
fn is_move(seen: &Survey) -> bool
    ensures { result ≡ is_move seen.now }
{
    seen.esp.times == 1
        && seen.set.times == 1
        && seen.seq.times == 1
        && seen.echo.times < 2
        && seen.ack.times < 2
        && seen.request.times == 0
}

// The parameters are those of a Reply.
#[tactic(auto, unfolding(crate::specs::Kinds::is_reply))]
fn is_reply(seen: &Survey) -> bool
    ensures { result ≡ is_reply seen.now }
{
    seen.echo.times == 1
        && seen.esp.times == 0
        && seen.set.times == 0
        && seen.seq.times == 0
        && seen.request.times == 0
        && seen.ack.times < 2
}

// The parameters are those of a Check.
#[tactic(auto, unfolding(crate::specs::Kinds::is_check))]
fn is_check(seen: &Survey) -> bool
    ensures { result ≡ is_check seen.now }
{
    seen.seq.times == 1
        && seen.request.times == 1
        && seen.esp.times < 2
        && seen.ack.times < 2
        && seen.set.times == 0
        && seen.echo.times == 0
}

// The packet's own part that holds a Check's opaque bytes, as far as the packet goes.
#[tactic(auto, unfolding(crate::specs::Readings::opaque_of))]
pub fn opaque_part<'p>(packet: &'p [u8], c: CheckFields) -> &'p [u8]
    ensures { result.now ≡ opaque_of packet.now c }
{
    let rest = packet.get(c.body..).unwrap_or_default();
    &rest[..c.len.min(rest.len())]
}

// A Move, a Reply, a Check, or refusal 5.
#[tactic(auto, unfolding(crate::specs::Readings::kind_of))]
fn read_kind(packet: &[u8], seen: &Survey) -> Result<Message, Refusal>
    requires { Parts packet.now seen.now }
    ensures { result ≡ kind_of packet.now seen.now }
{
    if is_move(seen) {
        read_move(packet, seen)
    } else if is_reply(seen) {
        Ok(Message::Reply(echo_of(packet, seen.echo)))
    } else if is_check(seen) {
        Ok(Message::PeerCheck(CheckFields {
            id: octets::u32_at(packet, seen.seq.body),
            body: seen.request.body,
            len: seen.request.len,
        }))
    } else {
        Err(Refusal::UnknownMessage)
    }
}

// Refusals 3 to 6, or what the packet says: one pass over its parameters and one over its set.
#[tactic(auto, using(crate::proofs::Choices::parts_read), unfolding(frame::specs::Survey::walk_of, crate::specs::Readings::reading_of))]
pub fn read_packet(packet: &[u8]) -> Result<Message, Refusal>
    ensures { result ≡ reading_of packet.now }
{
    let seen = frame::walk(packet)?;
    if seen.unknown {
        return Err(Refusal::UnknownParameter);
    }
    read_kind(packet, &seen)
}
