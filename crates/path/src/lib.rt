// The choice of path: which slot a payload may go to. Depends on slots and slot.
// The functions take the slots and the preference, and not the association, so that they serve an association with several sets of slots.
#![tactic(auto)]

ghost use Rattle.std.specs.Prelude.{◌≡◌, false, Bool};
ghost use Rattle.std.specs.Fn.{FnReturnsAt};
ghost use Rattle.slot.specs.Found.{empty_slot};
ghost use Rattle.slot.specs.declared.Slot as slots_of;
ghost use Rattle.path.specs.Choices.{carries, active_carrier, unverified_carrier, choice, path_of};

use slot::{SLOT_COUNT, Slot, Status};

// The traffic types that carry payload: both kinds of traffic, and data alone. A traffic type is a number in each locator, since one that a host hands in may
// have any, and carries nothing then.
pub const TRAFFIC_BOTH: u8 = 0;

pub const TRAFFIC_DATA: u8 = 2;

// The slot that is picked, with the status that it has, or no carrier is ACTIVE or UNVERIFIED: three cases, which the definition names, and no Option of a pair.
#[derive(Clone, Copy)]
pub enum Path {
    ToActive(usize),
    ToUnverified(usize),
    NoCarrier,
}

// The traffic type carries payload.
pub fn is_carrier(traffic: u8) -> bool
    ensures { result ≡ carries traffic }
{
    traffic == TRAFFIC_BOTH || traffic == TRAFFIC_DATA
}

// The slot holds a carrier that is ACTIVE.
fn is_active_carrier(slot: &Slot) -> bool
    ensures { result ≡ active_carrier slot.now }
{
    slot.holding.is_some_and(|l| is_carrier(l.traffic) && matches!(l.status, Status::Active))
}

// The slot holds a carrier that is UNVERIFIED.
fn is_unverified_carrier(slot: &Slot) -> bool
    ensures { result ≡ unverified_carrier slot.now }
{
    slot.holding.is_some_and(|l| is_carrier(l.traffic) && matches!(l.status, Status::Unverified(_)))
}

// The preferred slot if it fits, or else the lowest that does. The contract holds of each test that `fits` computes, and that an empty slot does not pass: a
// preferred number may lie past the slots.
fn choose<F: Fn(&Slot) -> bool>(
    slots: &[Slot; SLOT_COUNT],
    preferred: Option<usize>,
    fits: F,
) -> Option<usize>
    requires { F.IsAlwaysCallable fits }
    ensures { (test : slots_of.Slot → Bool) → test empty_slot ≡ false → ((s : slots_of.Slot) (b : Bool) → FnReturnsAt F.Fn fits s b → b ≡ test s) → result ≡ choice test preferred slots.now }
{
    match preferred {
        Some(n) if n < SLOT_COUNT && fits(&slots[n]) => Some(n),
        _ => slots.iter().position(fits),
    }
}

// The path that a payload takes: to ACTIVE if there is one, or else to UNVERIFIED.
#[tactic(auto, unfolding(crate::specs::Choices::path_of))]
pub fn pick(slots: &[Slot; SLOT_COUNT], preferred: Option<usize>) -> Path
    ensures { result ≡ path_of preferred slots.now }
{
    if let Some(i) = choose(slots, preferred, is_active_carrier) {
        return Path::ToActive(i);
    }
    match choose(slots, preferred, is_unverified_carrier) {
        Some(i) => Path::ToUnverified(i),
        None => Path::NoCarrier,
    }
}
