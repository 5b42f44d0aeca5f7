// The association: its form, refusal 0, and the start. Depends on credit, path, slots, slot, address, refusal, boolean.
#![tactic(auto)]

ghost use Rattle.std.specs.Prelude.{◌≡◌, ◌<◌};
ghost use Rattle.credit.specs.Clock.{time_limit};
ghost use Rattle.association.specs.Form.{refusal0};
ghost use Rattle.association.specs.Start.{unusable_spi, refusal16, no_association, started, start_of};

use address::Address;
use credit::{CREDIT_LIMIT, TIME_LIMIT};
use path::TRAFFIC_BOTH;
use refusal::Refusal;
use slot::{Locator, SLOT_COUNT, Slot, Status};

// A slot that holds nothing.
const EMPTY_SLOT: Slot = Slot { holding: None };

// One past the last Update ID: 2^32.
pub const ID_LIMIT: u64 = 4294967296;

// An association with one peer. `aged` is the time of the last ageing, `peer` the highest Update ID of the peer that was seen, `next` the next own Update ID,
// and `preferred` the slot that the peer prefers.
#[derive(Clone, Copy)]
pub struct Association {
    pub outbound: u32,
    pub inbound: u32,
    pub time: u64,
    pub aged: u64,
    pub credit: u64,
    pub peer: Option<u32>,
    pub next: u64,
    pub preferred: Option<usize>,
    pub slots: [Slot; SLOT_COUNT],
}

// The answer to a call: accepted, or refused by the reason that the refusal names, with the association after it.
// It stands beside the outcome and not in it, since a refused call gives the association back, and a refused start one that every call refuses.
#[derive(Clone, Copy)]
pub struct Answer {
    pub outcome: Result<(), Refusal>,
    pub association: Association,
}

// Refusal 0: no call makes such an association.
#[tactic(auto, unfolding(crate::specs::Form::refusal0))]
pub fn is_bad_association(a: &Association) -> bool
    ensures { result ≡ refusal0 a.now }
{
    TIME_LIMIT <= a.time
        || a.time < a.aged
        || CREDIT_LIMIT < a.credit
        || ID_LIMIT < a.next
        || a.preferred.is_some_and(|n| SLOT_COUNT <= n)
        || slots::any_bad(&a.slots, a.time)
}

// An SPI that no association may use.
pub fn is_unusable_spi(spi: u32) -> bool
    ensures { result ≡ unusable_spi spi }
{
    spi == 0
}

// Refusal 16.
fn is_bad_start(time: u64, outbound: u32, inbound: u32, address: Address, lifetime: u32) -> bool
    ensures { result ≡ refusal16 time outbound inbound address lifetime }
{
    TIME_LIMIT <= time
        || is_unusable_spi(outbound)
        || is_unusable_spi(inbound)
        || lifetime == 0
        || !address::is_legal(address)
}

// What stands where there is no association. Every call refuses it with 0.
fn no_association() -> Association
    ensures { result ≡ no_association }
{
    Association {
        outbound: 0,
        inbound: 0,
        time: TIME_LIMIT,
        aged: 0,
        credit: 0,
        peer: None,
        next: 0,
        preferred: None,
        slots: [EMPTY_SLOT; SLOT_COUNT],
    }
}

// A new association: slot 0 holds the address, ACTIVE and preferred. Its five arguments are those of `start`, as a host hands them in, and that the time is
// below its limit was tested there.
fn new_association(
    time: u64,
    outbound: u32,
    inbound: u32,
    address: Address,
    lifetime: u32,
) -> Association
    requires { time < time_limit }
    ensures { result ≡ started time outbound inbound address lifetime }
{
    let mut slots = [EMPTY_SLOT; SLOT_COUNT];
    slots[0] = Slot {
        holding: Some(Locator {
            address,
            traffic: TRAFFIC_BOTH,
            expiry: time + u64::from(lifetime),
            status: Status::Active,
        }),
    };
    Association {
        outbound,
        inbound,
        time,
        aged: time,
        credit: 0,
        peer: None,
        next: 0,
        preferred: Some(0),
        slots,
    }
}

// Starts an association at a time, with both SPIs and the peer's address and its lifetime, or refuses with 16.
#[tactic(auto, unfolding(crate::specs::Start::start_of))]
pub fn start(time: u64, outbound: u32, inbound: u32, address: Address, lifetime: u32) -> Answer
    ensures { result ≡ start_of time outbound inbound address lifetime }
{
    if is_bad_start(time, outbound, inbound, address, lifetime) {
        return Answer {
            outcome: Err(Refusal::BadStart),
            association: no_association(),
        };
    }
    Answer {
        outcome: Ok(()),
        association: new_association(time, outbound, inbound, address, lifetime),
    }
}
