// A record of a trace as the call that it stands for. Depends on entries, sections, address, reply_form.
#![tactic(auto)]

ghost use Rattle.std.specs.Prelude.{◌≡◌, cond};
ghost use Rattle.trace.specs.Calls.{has_sizes, is_start, start_of, is_message, message_of, is_tick, tick_of, has_list_sizes, is_announcement, announcement_of, plain_of, call_of, nonces_of};

use address::Address;
use entries::{ADDRESS_SIZE, NUMBER_SIZE, are_entries, entry_count, mark, narrow, number};
use reply_form::NONCE_COUNT;
use sections::{Record, Section};
use std::array;

// The first number of a record says which call it is. A trace may hold any number there, so these are constants and no enum.
const START: u64 = 0;

const MESSAGE: u64 = 1;

const ARRIVAL: u64 = 2;

const SEND: u64 = 3;

const TICK: u64 = 4;

const ANNOUNCE: u64 = 5;

// The bytes of the four numbers of an announcement's entry, which are also those of its other four numbers.
const ENTRY_SIZE: usize = 32;

// The longest buffer that a trace may name: 16 bits hold its length.
pub const ROOM_LIMIT: usize = 65535;

// What a start is given.
#[derive(Clone, Copy)]
pub struct StartCall {
    pub time: u64,
    pub outbound: u32,
    pub inbound: u32,
    pub lifetime: u32,
    pub address: Address,
}

// What a message is given besides its packet and its nonces: the host's mark, and the length of the reply buffer.
#[derive(Clone, Copy)]
pub struct MessageCall {
    pub authentic: bool,
    pub room: u16,
}

// What a tick is given: its time, and the length of its buffer.
#[derive(Clone, Copy)]
pub struct TickCall {
    pub time: u64,
    pub room: u16,
}

// What an announcement is given besides its list: the length of its buffer, how many entries the list has, the new inbound SPI and the KEYMAT Index.
#[derive(Clone, Copy)]
pub struct AnnounceCall {
    pub room: u16,
    pub count: usize,
    pub inbound: u32,
    pub keymat: u16,
}

// The call that a record stands for.
#[derive(Clone, Copy)]
pub enum Call {
    Start(StartCall),
    Message(MessageCall),
    Arrival(u64),
    Send(u64),
    Tick(TickCall),
    Announce(AnnounceCall),
}

// The sections have these sizes.
fn has_sizes(found: Record, numbers: usize, body: usize, nonces: usize) -> bool
    ensures { result ≡ has_sizes found numbers body nonces }
{
    sections::size(found.numbers) == numbers
        && sections::size(found.body) == body
        && sections::size(found.nonces) == nonces
}

// What a start is given, where the record stands for one.
#[tactic(auto, unfolding(crate::specs::Calls::is_start))]
fn start_of(s: &[u8], found: Record) -> Option<StartCall>
    ensures { result ≡ cond (is_start s.now found) (Some (start_of s.now found)) None }
{
    let numbers = found.numbers;
    if !has_sizes(found, 5 * NUMBER_SIZE, ADDRESS_SIZE, 0) || number(s, numbers, 0) != START {
        return None;
    }
    Some(StartCall {
        time: number(s, numbers, 1),
        outbound: narrow(number(s, numbers, 2))?,
        inbound: narrow(number(s, numbers, 3))?,
        lifetime: narrow(number(s, numbers, 4))?,
        address: address::address_at(s, found.body.start),
    })
}

// The same for a message. Its packet is of any size.
#[tactic(auto, unfolding(crate::specs::Calls::is_message))]
fn message_of(s: &[u8], found: Record) -> Option<MessageCall>
    ensures { result ≡ cond (is_message s.now found) (Some (message_of s.now found)) None }
{
    let numbers = found.numbers;
    let packet = sections::size(found.body);
    if !has_sizes(found, 3 * NUMBER_SIZE, packet, NONCE_COUNT * NUMBER_SIZE)
        || number(s, numbers, 0) != MESSAGE
    {
        return None;
    }
    Some(MessageCall {
        authentic: mark(number(s, numbers, 1))?,
        room: u16::try_from(number(s, numbers, 2)).ok()?,
    })
}

// The same for a tick.
#[tactic(auto, unfolding(crate::specs::Calls::is_tick))]
fn tick_of(s: &[u8], found: Record) -> Option<TickCall>
    ensures { result ≡ cond (is_tick s.now found) (Some (tick_of s.now found)) None }
{
    let numbers = found.numbers;
    if !has_sizes(found, 3 * NUMBER_SIZE, 0, 0) || number(s, numbers, 0) != TICK {
        return None;
    }
    Some(TickCall {
        time: number(s, numbers, 1),
        room: u16::try_from(number(s, numbers, 2)).ok()?,
    })
}

// The sections have the sizes of an announcement: four numbers for each entry and four more, and an address for each entry.
fn has_list_sizes(found: Record) -> bool
    ensures { result ≡ has_list_sizes found }
{
    let count = entry_count(found);
    let numbers = (count + 1).checked_mul(ENTRY_SIZE);
    numbers.is_some_and(|size| has_sizes(found, size, ADDRESS_SIZE * count, 0))
}

// The same for an announcement. Its list may have more entries than the call takes.
#[tactic(auto, unfolding(crate::specs::Calls::is_announcement))]
fn announcement_of(s: &[u8], found: Record) -> Option<AnnounceCall>
    ensures { result ≡ cond (is_announcement s.now found) (Some (announcement_of s.now found)) None }
{
    let numbers = found.numbers;
    if !has_list_sizes(found) || number(s, numbers, 0) != ANNOUNCE || !are_entries(s, found) {
        return None;
    }
    let count = entry_count(found);
    let place = 2 + 4 * count;
    Some(AnnounceCall {
        room: u16::try_from(number(s, numbers, 1)).ok()?,
        count,
        inbound: narrow(number(s, numbers, place))?,
        keymat: u16::try_from(number(s, numbers, place + 1)).ok()?,
    })
}

// The call with one argument that a number names.
#[tactic(auto, unfolding(crate::specs::Calls::plain_of))]
fn plain_of(which: u64, argument: u64) -> Option<Call>
    ensures { result ≡ plain_of which argument }
{
    match which {
        ARRIVAL => Some(Call::Arrival(argument)),
        SEND => Some(Call::Send(argument)),
        _ => None,
    }
}

// The call that a record of s stands for; none where its sections do not fit any.
#[tactic(auto, unfolding(crate::specs::Calls::call_of))]
pub fn call_in(s: &[u8], found: Record) -> Option<Call>
    ensures { result ≡ call_of s.now found }
{
    if let Some(start) = start_of(s, found) {
        return Some(Call::Start(start));
    }
    if let Some(message) = message_of(s, found) {
        return Some(Call::Message(message));
    }
    if let Some(tick) = tick_of(s, found) {
        return Some(Call::Tick(tick));
    }
    if let Some(announcement) = announcement_of(s, found) {
        return Some(Call::Announce(announcement));
    }
    if !has_sizes(found, 2 * NUMBER_SIZE, 0, 0) {
        return None;
    }
    plain_of(number(s, found.numbers, 0), number(s, found.numbers, 1))
}

// The eight nonces in a section.
pub fn nonces_in(s: &[u8], nonces: Section) -> [u64; NONCE_COUNT]
    ensures { result ≡ nonces_of s.now nonces }
{
    array::from_fn(|k| number(s, nonces, k))
}
