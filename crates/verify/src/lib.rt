// Step 1, and refusal 8: an echo response against the checks that are out. Depends on readdress, packet, slots and slot.
#![tactic(auto)]

ghost use Rattle.std.specs.Prelude.{◌≡◌};
ghost use Rattle.slot.specs.Found.{on_locator};
ghost use Rattle.readdress.specs.Echoes as rules;

use packet::EchoResponse;
use slot::{SLOT_COUNT, Slot, Status};

// It is the nonce of the check that the status carries.
fn answers(echo: EchoResponse, status: Status) -> bool
    ensures { result ≡ rules.answers echo status }
{
    match (echo, status) {
        (EchoResponse::Nonce(nonce), Status::Unverified(check)) => nonce == check.nonce,
        _ => false,
    }
}

// The slot after the echo response: a locator whose check it answers is ACTIVE.
fn verify_slot(slot: Slot, echo: EchoResponse) -> Slot
    ensures { result ≡ on_locator (rules.verify_locator echo) slot }
{
    match slot.holding {
        Some(l) if answers(echo, l.status) => Slot {
            holding: Some(slot::with_status(l, Status::Active)),
        },
        _ => slot,
    }
}

// Step 1: the slots after the echo response.
#[tactic(auto, unfolding(readdress::specs::Echoes::verify_all))]
pub fn verify_all(slots: &mut [Slot; SLOT_COUNT], echo: EchoResponse)
    ensures { slots.new ≡ rules.verify_all echo slots.old }
{
    for slot in slots.iter_mut() {
        *slot = verify_slot(*slot, echo);
    }
}

// Refusal 8: the echo response matches no outstanding nonce.
pub fn is_unmatched(slots: &[Slot; SLOT_COUNT], echo: EchoResponse) -> bool
    ensures { result ≡ rules.refusal8 echo slots.now }
{
    match echo {
        EchoResponse::Absent => false,
        EchoResponse::Nonce(nonce) => !slots::is_outstanding(slots, nonce),
        EchoResponse::OtherLength => true,
    }
}
