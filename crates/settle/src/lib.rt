// Steps 2, 3 and 4 of a Move: what becomes of the locators that are held. Depends on listed, readdress, credit and slot.
#![tactic(auto)]

ghost use Rattle.std.specs.Prelude.{◌≡◌, map, ◌<◌};
ghost use Rattle.credit.specs.Clock.{time_limit};
ghost use Rattle.slot.specs.Found.{on_locator};
ghost use Rattle.readdress.specs.Steps as steps;
ghost use Rattle.settle.specs.Renewed.{renewed_at};

use address::Address;
use credit::TIME_LIMIT;
use locator::ListedLocator;
use slot::{Locator, SLOT_COUNT, Slot, Status};

// The slot with its locator DEPRECATED.
fn deprecate_slot(slot: Slot) -> Slot
    ensures { result ≡ on_locator steps.deprecate slot }
{
    Slot {
        holding: slot
            .holding
            .map(|l| slot::with_status(l, Status::Deprecated)),
    }
}

// Step 2: where NEW SPI differs, no locator that is held is bound to it. Whether it does is an argument of the definition too.
#[tactic(auto, unfolding(readdress::specs::Steps::rebind))]
pub fn rebind(slots: &mut [Slot; SLOT_COUNT], differs: bool)
    ensures { slots.new ≡ steps.rebind differs slots.old }
{
    if differs {
        for slot in slots.iter_mut() {
            *slot = deprecate_slot(*slot);
        }
    }
}

// The entry of the set that lists the address.
fn entry_for(listed: &[ListedLocator], address: Address) -> Option<ListedLocator>
    ensures { result ≡ steps.entry_for address listed.now }
{
    listed
        .iter()
        .copied()
        .find(|entry| address == entry.address)
}

// A locator by the set's entry for its address: the new traffic type and expiry. That the time is below its limit, so that the sum fits, is tested once, in
// `renew_all`; a type for it would serve two functions here and two in `place`, and be taken apart in each.
fn renew(l: Locator, time: u64, listed: &[ListedLocator]) -> Locator
    requires { time < time_limit }
    ensures { result ≡ steps.renew time listed.now l }
{
    match entry_for(listed, l.address) {
        None => l,
        Some(entry) => Locator {
            traffic: entry.traffic,
            expiry: time + u64::from(entry.lifetime),
            ..l
        },
    }
}

// The slot with its locator so.
fn renew_slot(slot: Slot, time: u64, listed: &[ListedLocator]) -> Slot
    requires { time < time_limit }
    ensures { result ≡ on_locator (steps.renew time listed.now) slot }
{
    Slot {
        holding: slot.holding.map(|l| renew(l, time, listed)),
    }
}

// Step 3: the listed locators that are held. A time that no association has leaves the slots as they are.
#[tactic(auto, unfolding(readdress::specs::Steps::renew_all))]
pub fn renew_all(slots: &mut [Slot; SLOT_COUNT], time: u64, listed: &[ListedLocator])
    ensures { slots.new ≡ renewed_at time listed.now slots.old }
{
    if time < TIME_LIMIT {
        for slot in slots.iter_mut() {
            *slot = renew_slot(*slot, time, listed);
        }
    }
}

// A locator that the set does not list turns DEPRECATED.
fn retire(l: Locator, listed: &[ListedLocator]) -> Locator
    ensures { result ≡ steps.retire listed.now l }
{
    if listed::is_listed(listed, l.address) {
        l
    } else {
        slot::with_status(l, Status::Deprecated)
    }
}

// The slot with its locator so.
fn retire_slot(slot: Slot, listed: &[ListedLocator]) -> Slot
    ensures { result ≡ on_locator (steps.retire listed.now) slot }
{
    Slot {
        holding: slot.holding.map(|l| retire(l, listed)),
    }
}

// Step 4: the locators that are held and not listed turn DEPRECATED. Each sweep over the slots, here and in `verify` and `slots`, is a loop of three lines, which
// is as plain as a call with a closure and needs no contract over every change that a closure computes.
#[tactic(auto, unfolding(readdress::specs::Steps::retire_all))]
pub fn retire_all(slots: &mut [Slot; SLOT_COUNT], listed: &[ListedLocator])
    ensures { slots.new ≡ steps.retire_all listed.now slots.old }
{
    for slot in slots.iter_mut() {
        *slot = retire_slot(*slot, listed);
    }
}
