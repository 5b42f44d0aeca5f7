// Steps 5 and 6 of a Move: slots for the listed addresses that none holds, and the preference. Depends on listed, readdress, credit and slot.
#![tactic(auto)]

ghost use Rattle.std.specs.Prelude.{◌≡◌, cond, ◌<◌, IfSome, None};
ghost use Rattle.credit.specs.Clock.{time_limit};
ghost use Rattle.slot.specs.Found.{holds, slot_count};
ghost use Rattle.path.specs.Choices.{lowest};
ghost use Rattle.readdress.specs.Steps.{is_free, entered, dropped, is_held, place_other, marked_entry};
ghost use Rattle.readdress.specs.Moves.{new_preference};
ghost use Rattle.place.specs.Placing.{placed_at};

use address::Address;
use credit::TIME_LIMIT;
use locator::ListedLocator;
use readdress::Placement;
use slot::{Locator, SLOT_COUNT, Slot, Status};

// The slot is empty, or has a DEPRECATED address that the set does not list.
fn is_free(slot: &Slot, listed: &[ListedLocator]) -> bool
    ensures { result ≡ is_free listed.now slot.now }
{
    match slot.holding {
        None => true,
        Some(l) => slot::is_deprecated(l.status) && !listed::is_listed(listed, l.address),
    }
}

// The lowest slot that is free.
fn lowest_free(slots: &[Slot; SLOT_COUNT], listed: &[ListedLocator]) -> Option<usize>
    ensures found { result ≡ lowest (is_free listed.now) 0 slots.now }
    ensures within { IfSome result (λ n. n < slot_count) }
{
    slots.iter().position(|slot| is_free(slot, listed))
}

// The slot holds the address.
fn is_holder(slot: &Slot, address: Address) -> bool
    ensures { result ≡ holds address slot.now }
{
    slot.holding.is_some_and(|l| address == l.address)
}

// The slot that holds the address.
fn slot_of(slots: &[Slot; SLOT_COUNT], address: Address) -> Option<usize>
    ensures { result ≡ lowest (holds address) 0 slots.now }
{
    slots.iter().position(|slot| is_holder(slot, address))
}

// A slot holds the address.
fn is_held(slots: &[Slot; SLOT_COUNT], address: Address) -> bool
    ensures { result ≡ is_held address slots.now }
{
    slots.iter().any(|slot| is_holder(slot, address))
}

// A preference for a refilled slot is dropped.
fn drop_preference(preferred: Option<usize>, refilled: usize) -> Option<usize>
    ensures { result ≡ dropped refilled preferred }
{
    preferred.filter(|n| *n != refilled)
}

// A slot that the entry takes. It awaits its check, which makes it UNVERIFIED. That the time is below its limit is tested once, in `place_all`.
fn filled(entry: &ListedLocator, time: u64) -> Slot
    requires { time < time_limit }
    ensures { result ≡ entered time entry.now }
{
    Slot {
        holding: Some(Locator {
            address: entry.address,
            traffic: entry.traffic,
            expiry: time + u64::from(entry.lifetime),
            status: Status::Deprecated,
        }),
    }
}

// The slot that an entry with this address takes: none where the address is held already, or else the lowest free one.
fn room_for(slots: &[Slot; SLOT_COUNT], listed: &[ListedLocator], address: Address) -> Option<usize>
    ensures found { result ≡ cond (is_held address slots.now) None (lowest (is_free listed.now) 0 slots.now) }
    ensures within { IfSome result (λ n. n < slot_count) }
{
    if is_held(slots, address) {
        None
    } else {
        lowest_free(slots, listed)
    }
}

// An entry of the set takes its slot, unless its address is held already.
fn place_entry(p: &mut Placement, time: u64, listed: &[ListedLocator], entry: &ListedLocator)
    requires { time < time_limit }
    ensures { p.new ≡ place_other time listed.now entry.now p.old }
{
    if let Some(n) = room_for(&p.slots, listed, entry.address) {
        p.slots[n] = filled(entry, time);
        p.preferred = drop_preference(p.preferred, n);
    }
}

// Step 5: every listed address has a slot, in listed order. A time that no association has leaves the slots and the preference as they are.
pub fn place_all(p: &mut Placement, time: u64, listed: &[ListedLocator])
    ensures { p.new ≡ placed_at time listed.now p.old }
{
    if time < TIME_LIMIT {
        for entry in listed {
            place_entry(p, time, listed, entry);
        }
    }
}

// The locator with P.
fn marked(listed: &[ListedLocator]) -> Option<ListedLocator>
    ensures { result ≡ marked_entry listed.now }
{
    listed.iter().copied().find(|entry| entry.preferred)
}

// Step 6: the locator with P becomes preferred; without P the preference stays.
pub fn prefer(p: &Placement, listed: &[ListedLocator]) -> Option<usize>
    ensures { result ≡ new_preference listed.now p.now }
{
    marked(listed)
        .and_then(|entry| slot_of(&p.slots, entry.address))
        .or(p.preferred)
}
