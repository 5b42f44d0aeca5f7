// The slots of an association, all of them: whether two clash, their checks, their expiry, and which nonces are outstanding. Depends on slot.
// The functions take the slots and not the association, so that they serve an association with several sets of slots.
#![tactic(auto)]

ghost use Rattle.std.specs.Prelude.{◌||◌, ◌≡◌};
ghost use Rattle.std.specs.List.{list_any};
ghost use Rattle.slot.specs.Clashes.{clash};
ghost use Rattle.slots.specs.Rules.{clashing, bad_checks, expire_all, is_outstanding};
ghost use Rattle.slots.specs.Past.{past};

use slot::{SLOT_COUNT, Slot};

// The slot clashes with one of the others.
fn clashes_with(slot: &Slot, others: &[Slot]) -> bool
    ensures { result ≡ list_any (clash slot.now) others.now }
{
    others.iter().any(|other| slot::clashes(slot, other))
}

// A slot clashes with one after it.
fn any_clash(slots: &[Slot]) -> bool
    ensures { result ≡ clashing slots.now }
{
    match slots.split_first() {
        None => false,
        Some((slot, others)) => clashes_with(slot, others) || any_clash(others),
    }
}

// A slot has a check that no association of this time may hold.
fn any_bad_check(slots: &[Slot], time: u64) -> bool
    ensures { result ≡ bad_checks time slots.now }
{
    slots.iter().any(|slot| slot::has_bad_check(slot, time))
}

// What refusal 0 refuses of the slots: a slot clashes with one after it, or has a check that no association of this time may hold.
pub fn any_bad(slots: &[Slot; SLOT_COUNT], time: u64) -> bool
    ensures { result ≡ (clashing slots.now || bad_checks time slots.now) }
{
    any_clash(slots) || any_bad_check(slots, time)
}

// The slot holds a locator that is over.
fn is_past(slot: &Slot, time: u64) -> bool
    ensures { result ≡ past time slot.now }
{
    match slot.holding {
        Some(l) => slot::is_over(l, time),
        None => false,
    }
}

// The slots at a time: locators that are over are DEPRECATED. The other slots are not written.
pub fn expire_all(slots: &mut [Slot; SLOT_COUNT], time: u64)
    ensures { slots.new ≡ expire_all time slots.old }
{
    for slot in slots.iter_mut() {
        if is_past(slot, time) {
            *slot = slot::expire(*slot, time);
        }
    }
}

// The nonce is outstanding.
pub fn is_outstanding(slots: &[Slot; SLOT_COUNT], nonce: u64) -> bool
    ensures { result ≡ is_outstanding slots.now nonce }
{
    slots.iter().any(|slot| slot::has_nonce(slot, nonce))
}
