// A slot and the locator that it holds: its status, its expiry, and what two slots may not share. Depends on address, check_times and boolean.
#![tactic(auto)]

ghost use Rattle.std.specs.Prelude.{◌≡◌};
ghost use Rattle.slot.specs.Found.{with_status, is_deprecated, is_nonce, held_as};
ghost use Rattle.slot.specs.Clashes.{same_nonce, clash};
ghost use Rattle.slot.specs.Checks.{given_up, bad_check};
ghost use Rattle.slot.specs.Expiry.{is_over, expire_slot};

use address::Address;

// The slots of an association.
pub const SLOT_COUNT: usize = 8;

// The check that is out for an address: the nonce that its echo must hold, the time of its issue, the Update ID that it was sent with, and how often it
// was sent again. The longer numbers stand first, so that it takes no more room than it must.
#[derive(Clone, Copy)]
pub struct Check {
    pub nonce: u64,
    pub issued: u64,
    pub id: u32,
    pub resends: u8,
}

// UNVERIFIED, with its check; ACTIVE; DEPRECATED.
#[derive(Clone, Copy)]
pub enum Status {
    Unverified(Check),
    Active,
    Deprecated,
}

// A locator that is held.
#[derive(Clone, Copy)]
pub struct Locator {
    pub address: Address,
    pub traffic: u8,
    pub expiry: u64,
    pub status: Status,
}

// A slot that the association has for an address: empty, or with the locator that it holds.
#[derive(Clone, Copy)]
pub struct Slot {
    pub holding: Option<Locator>,
}

// The locator with another status.
pub fn with_status(l: Locator, status: Status) -> Locator
    ensures { result ≡ with_status l status }
{
    Locator { status, ..l }
}

// The status is DEPRECATED.
pub fn is_deprecated(status: Status) -> bool
    ensures { result ≡ is_deprecated status }
{
    matches!(status, Status::Deprecated)
}

// The locator in the slot has a check with this nonce.
pub fn has_nonce(slot: &Slot, nonce: u64) -> bool
    ensures { result ≡ held_as (is_nonce nonce) slot.now }
{
    match slot.holding {
        Some(
            Locator {
                status: Status::Unverified(check),
                ..
            },
        ) => nonce == check.nonce,
        _ => false,
    }
}

// Both are UNVERIFIED, and the nonces of their checks are equal.
fn same_nonce(x: Status, y: Status) -> bool
    ensures { result ≡ same_nonce x y }
{
    match (x, y) {
        (Status::Unverified(k), Status::Unverified(l)) => k.nonce == l.nonce,
        _ => false,
    }
}

// Two slots that no association may hold together: one address, or one nonce, stands in both.
#[tactic(auto, unfolding(crate::specs::Clashes::clash))]
pub fn clashes(x: &Slot, y: &Slot) -> bool
    ensures { result ≡ clash x.now y.now }
{
    match (x.holding, y.holding) {
        (Some(l), Some(m)) => l.address == m.address || same_nonce(l.status, m.status),
        _ => false,
    }
}

// The check of this status is given up at the time.
fn is_given_up(status: Status, time: u64) -> bool
    ensures { result ≡ given_up time status }
{
    match status {
        Status::Unverified(check) => check_times::is_given_up(check.issued, time),
        Status::Active | Status::Deprecated => false,
    }
}

// The locator is over at the time: at or past its expiry, or its check is given up.
pub fn is_over(l: Locator, time: u64) -> bool
    ensures { result ≡ is_over time l }
{
    l.expiry <= time || is_given_up(l.status, time)
}

// The locator in the slot has a check that no association of this time may hold.
pub fn has_bad_check(slot: &Slot, time: u64) -> bool
    ensures { result ≡ held_as (bad_check time) slot.now }
{
    match slot.holding {
        Some(
            Locator {
                status: Status::Unverified(check),
                ..
            },
        ) => { check_times::is_bad_check(check.issued, check.resends, time) }
        _ => false,
    }
}

// The slot at a time: a locator that is over is DEPRECATED.
pub fn expire(slot: Slot, time: u64) -> Slot
    ensures { result ≡ expire_slot time slot }
{
    match slot.holding {
        Some(l) if is_over(l, time) => Slot {
            holding: Some(with_status(l, Status::Deprecated)),
        },
        _ => slot,
    }
}
