// What the core is measured by: the whole answer to a packet, and to calls one after another, each as one number, so that nothing of it can be left out by a
// compiler. Crate exported_c hands both to programs in C and Rust. Depends on packet, message, payload, clock, association and the crates of their types.
#![tactic(auto)]

ghost use Rattle.std.specs.Prelude.{◌≡◌, true};
ghost use Rattle.packet.specs.Readings.{reading_of};
ghost use Rattle.refusal.specs.Table.{number_of};
ghost use Rattle.clock.specs.Ticks as ticks;
ghost use Rattle.update.specs.Messages as messages;
ghost use Rattle.exported.specs.Folds.{mixed, folded_from, folded};
ghost use Rattle.exported.specs.Readings.{echo_numbers, locator_numbers, listed_numbers, move_numbers, check_numbers, reading_numbers};
ghost use Rattle.exported.specs.Calls.{outcome_number, send_number, end_number, later, ticked, received, made_of, buffer_of, calls_run, run_number};

use address::Address;
use association::Association;
use locator::ListedLocator;
use packet::{CheckFields, EchoResponse, Message, MoveFields};
use refusal::Refusal;
use reply_form::NONCE_COUNT;
use update::Received;

// The numbers that the four kinds of reading begin with. They and those below go into a number that programs in C and Rust compare, so they are no enums.
const MOVE_KIND: u64 = 1;

const REPLY_KIND: u64 = 2;

const CHECK_KIND: u64 = 3;

const REFUSED_KIND: u64 = 4;

// Fields that share a number stand so far up in it.
const SPI_WEIGHT: u64 = 4294967296;

const TRAFFIC_WEIGHT: u64 = 512;

const TYPE_WEIGHT: u64 = 2;

// A running number after one more: five times it and the new one, wrapped.
#[tactic(auto, unfolding(crate::specs::Folds::mixed))]
pub fn mix(h: u64, x: u64) -> u64
    ensures { result ≡ mixed h x }
{
    h.wrapping_mul(5).wrapping_add(x)
}

// A running number after more numbers, in their order.
fn mix_all(start: u64, numbers: &[u64]) -> u64
    ensures { result ≡ folded_from start numbers.now }
{
    numbers.iter().fold(start, |h, x| mix(h, *x))
}

// The running number after a listed locator.
fn mix_locator(h: u64, l: &ListedLocator) -> u64
    ensures { result ≡ folded_from h (locator_numbers l.now) }
{
    let wide = u64::from(l.spi) * SPI_WEIGHT + u64::from(l.lifetime);
    let small = u64::from(l.traffic) * TRAFFIC_WEIGHT
        + u64::from(l.kind) * TYPE_WEIGHT
        + u64::from(l.preferred);
    mix_all(h, &[l.address.high, l.address.low, wide, small])
}

// The running number after listed locators.
fn mix_listed(start: u64, listed: &[ListedLocator]) -> u64
    ensures { result ≡ folded_from start (listed_numbers listed.now) }
{
    let mut h = start;
    for locator in listed {
        h = mix_locator(h, locator);
    }
    h
}

// The running number after an echo response.
fn mix_echo(h: u64, echo: EchoResponse) -> u64
    ensures { result ≡ folded_from h (echo_numbers echo) }
{
    match echo {
        EchoResponse::Absent => mix_all(h, &[0, 0]),
        EchoResponse::Nonce(n) => mix_all(h, &[1, n]),
        EchoResponse::OtherLength => mix_all(h, &[2, 0]),
    }
}

// A Move that lists so many locators, without them.
fn mix_move(m: MoveFields, count: usize) -> u64
    ensures { result ≡ folded (move_numbers m count) }
{
    let numbers = [
        MOVE_KIND,
        u64::from(m.keymat),
        u64::from(m.old),
        u64::from(m.new),
        u64::from(m.id),
        count as u64,
    ];
    mix_echo(mix_all(0, &numbers), m.echo)
}

fn mix_check(c: CheckFields) -> u64
    ensures { result ≡ folded (check_numbers c) }
{
    mix_all(
        0,
        &[CHECK_KIND, u64::from(c.id), c.body as u64, c.len as u64],
    )
}

// All that is read of a packet, as one number.
#[tactic(auto, using(crate::proofs::Folds::fold_after), unfolding(crate::specs::Readings::reading_numbers))]
pub fn nisgrove_read(packet: &[u8]) -> u64
    ensures { result ≡ folded (reading_numbers (reading_of packet.now)) }
{
    match packet::read_packet(packet) {
        Ok(Message::Move(m, set)) => mix_listed(mix_move(m, set.count), set.listed()),
        Ok(Message::Reply(echo)) => mix_echo(mix(0, REPLY_KIND), echo),
        Ok(Message::PeerCheck(c)) => mix_check(c),
        Err(why) => mix_all(0, &[REFUSED_KIND, u64::from(refusal::number(why))]),
    }
}

// The association that the calls start with: its time, both SPIs, and its one address, 2001:db8::1, with its lifetime.
const START_TIME: u64 = 100;

const START_OUTBOUND: u32 = 0x2001;

const START_INBOUND: u32 = 0x1001;

const START_ADDRESS: Address = Address {
    high: 0x2001_0db8_0000_0000,
    low: 1,
};

const START_LIFETIME: u32 = 1000000000;

// The bytes that an arrival brings, and those that a send asks for.
const ARRIVAL_SIZE: u64 = 1000;

const SEND_SIZE: u64 = 500;

// The nonces that the messages are given.
const FIRST_NONCES: [u64; NONCE_COUNT] = [11, 12, 13, 14, 15, 16, 17, 18];

const SECOND_NONCES: [u64; NONCE_COUNT] = [21, 22, 23, 24, 25, 26, 27, 28];

// The bytes that name the calls: they come from a program in C or Rust, so they are numbers and no enum.
const ARRIVAL_CALL: u8 = 0;

const SEND_CALL: u8 = 1;

const TICK_CALL: u8 = 2;

const FIRST_CALL: u8 = 3;

const SECOND_CALL: u8 = 4;

const TEST_CALL: u8 = 5;

// Past the numbers of refusals: a call was accepted; what else became of a message.
const ACCEPTED: u64 = 256;

const REPLIED: u64 = 257;

const RESPONDED: u64 = 258;

const REPEATED: u64 = 259;

// What a call leaves, and the number that it counts as.
#[derive(Drop)]
struct Made {
    association: Association,
    number: u64,
}

// A refused call counts as its refusal.
fn of_refusal(why: Refusal) -> u64
    ensures { result ≡ number_of why }
{
    u64::from(refusal::number(why))
}

fn of_outcome(outcome: Result<(), Refusal>) -> u64
    ensures { result ≡ outcome_number outcome }
{
    outcome.map_or_else(of_refusal, |()| ACCEPTED)
}

fn of_send(outcome: Result<usize, Refusal>) -> u64
    ensures { result ≡ send_number outcome }
{
    outcome.map_or_else(of_refusal, |slot| mix(ACCEPTED, slot as u64))
}

fn of_message(outcome: Result<Received, Refusal>) -> u64
    ensures { result ≡ end_number outcome }
{
    match outcome {
        Ok(Received::Moved) => ACCEPTED,
        Ok(Received::Replied) => REPLIED,
        Ok(Received::Responded) => RESPONDED,
        Ok(Received::Repeated) => REPEATED,
        Err(why) => of_refusal(why),
    }
}

// A message that the host found authentic.
fn receive(a: Association, packet: &[u8], nonces: [u64; NONCE_COUNT], buffer: &mut [u8]) -> Made
    ensures value { result ≡ received (messages.message_of a packet.now true nonces buffer.old) }
    ensures buffer_after { buffer.new ≡ messages.buffer_after a packet.now true nonces buffer.old }
{
    let answer = message::receive(a, packet, true, nonces, buffer);
    let told = [
        answer.written as u64,
        answer.checks as u64,
        u64::from(answer.keymat),
    ];
    Made {
        association: answer.association,
        number: mix_all(of_message(answer.outcome), &told),
    }
}

// A tick a second later, with the bytes that it writes.
fn tick(a: Association, buffer: &mut [u8]) -> Made
    ensures value { result ≡ ticked (ticks.tick_of a (later a) buffer.old) }
    ensures buffer_after { buffer.new ≡ ticks.buffer_after a (later a) buffer.old }
{
    let answer = clock::tick(a, a.time.wrapping_add(1), buffer);
    Made {
        association: answer.association,
        number: mix(of_outcome(answer.outcome), answer.written as u64),
    }
}

// The call that a byte names. The second message's association is not kept.
#[tactic(auto, unfolding(crate::specs::Calls::made_of, crate::specs::Calls::buffer_of))]
fn make(a: Association, call: u8, first: &[u8], second: &[u8], buffer: &mut [u8]) -> Made
    ensures value { result ≡ made_of first.now second.now a buffer.old call }
    ensures buffer_after { buffer.new ≡ buffer_of first.now second.now a buffer.old call }
{
    match call {
        ARRIVAL_CALL => {
            let answer = payload::arrival(a, ARRIVAL_SIZE);
            Made {
                association: answer.association,
                number: of_outcome(answer.outcome),
            }
        }
        SEND_CALL => {
            let answer = payload::send(a, SEND_SIZE);
            Made {
                association: answer.association,
                number: of_send(answer.outcome),
            }
        }
        TICK_CALL => tick(a, buffer),
        FIRST_CALL => receive(a, first, FIRST_NONCES, buffer),
        SECOND_CALL => Made {
            association: a,
            number: receive(a, second, SECOND_NONCES, buffer).number,
        },
        TEST_CALL => Made {
            association: a,
            number: u64::from(association::is_bad_association(&a)),
        },
        _ => Made {
            association: a,
            number: 0,
        },
    }
}

// Calls one after another on a new association, as one number with the credit and the time that are left at the end. Each byte of `calls` names one: 0 an
// arrival, 1 a send, 2 a tick a second later, 3 the message `first`, 4 the message `second`, whose association is not kept, and 5 the test of refusal 0.
#[tactic(auto, unfolding(crate::specs::Calls::run_of))]
pub fn nisgrove_calls(calls: &[u8], first: &[u8], second: &[u8], buffer: &mut [u8]) -> u64
    ensures value { result ≡ run_number (calls_run calls.now first.now second.now buffer.old) }
    ensures buffer_after { buffer.new ≡ (calls_run calls.now first.now second.now buffer.old).buffer }
{
    let answer = association::start(
        START_TIME,
        START_OUTBOUND,
        START_INBOUND,
        START_ADDRESS,
        START_LIFETIME,
    );
    let mut a = answer.association;
    let mut h = 0;
    for call in calls {
        let made = make(a, *call, first, second, buffer);
        a = made.association;
        h = mix(h, made.number);
    }
    mix_all(h, &[a.credit, a.time])
}
