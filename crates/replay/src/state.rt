// The lines of an association's state, put as answers.rt says.
#![tactic(auto, unfolding(lines::specs::Laid::laid_out, lines::specs::Laid::laid_end, lines::specs::State::address_text, lines::specs::State::check_text, lines::specs::State::status_text, lines::specs::State::locator_text, lines::specs::State::slot_text, lines::specs::State::peer_text, lines::specs::State::preference_text, lines::specs::State::numbers_text))]

ghost use Rattle.lines.specs.State.{address_text, check_text, status_text, locator_text, slot_text, slots_text, peer_text, preference_text, numbers_text, head_text, state_text};
ghost use Rattle.replay.specs.Put.{Put};

use crate::words::Text;
use address::Address;
use association::Association;
use slot::{Check, Locator, SLOT_COUNT, Slot, Status};

fn put_address(text: &mut Text, address: Address)
    ensures { Put (address_text address) text.old text.new }
{
    text.put_hex_number(address.high);
    text.put_hex_number(address.low);
}

fn put_check(text: &mut Text, check: Check)
    ensures { Put (check_text check) text.old text.new }
{
    text.put_hex_number(check.nonce);
    text.put_field(b" ", u64::from(check.id));
    text.put_field(b" issued ", check.issued);
    text.put_field(b" resends ", u64::from(check.resends));
}

fn put_status(text: &mut Text, status: Status)
    ensures { Put (status_text status) text.old text.new }
{
    match status {
        Status::Active => text.put_word(b" active\n"),
        Status::Deprecated => text.put_word(b" deprecated\n"),
        Status::Unverified(check) => {
            text.put_word(b" unverified ");
            put_check(text, check);
            text.put_word(b"\n");
        }
    }
}

fn put_locator(text: &mut Text, n: usize, l: Locator)
    ensures { Put (locator_text n l) text.old text.new }
{
    text.put_field(b"  slot ", n as u64);
    text.put_word(b" ");
    put_address(text, l.address);
    text.put_field(b" traffic ", u64::from(l.traffic));
    text.put_field(b" expiry ", l.expiry);
    put_status(text, l.status);
}

// The line of a slot; none where it is empty.
fn put_slot(text: &mut Text, n: usize, slot: &Slot)
    ensures { Put (slot_text n slot.now) text.old text.new }
{
    if let Some(l) = slot.holding {
        put_locator(text, n, l);
    }
}

fn put_slots(text: &mut Text, slots: &[Slot; SLOT_COUNT])
    ensures { Put (slots_text 0 slots.now) text.old text.new }
{
    for (n, slot) in slots.iter().enumerate() {
        put_slot(text, n, slot);
    }
}

fn put_peer(text: &mut Text, peer: Option<u32>)
    ensures { Put (peer_text peer) text.old text.new }
{
    match peer {
        Some(id) => text.put_field(b" peer ", u64::from(id)),
        None => text.put_word(b" peer -"),
    }
}

fn put_preference(text: &mut Text, preferred: Option<usize>)
    ensures { Put (preference_text preferred) text.old text.new }
{
    match preferred {
        Some(n) => text.put_field(b" preferred ", n as u64),
        None => text.put_word(b" preferred -"),
    }
}

fn put_numbers(text: &mut Text, a: &Association)
    ensures { Put (numbers_text a.now) text.old text.new }
{
    text.put_field(b"  out ", u64::from(a.outbound));
    text.put_field(b" in ", u64::from(a.inbound));
    text.put_field(b" time ", a.time);
    text.put_field(b" aged ", a.aged);
    text.put_field(b" credit ", a.credit);
}

// The line of what an association holds besides its slots.
fn put_head(text: &mut Text, a: &Association)
    ensures { Put (head_text a.now) text.old text.new }
{
    put_numbers(text, a);
    put_peer(text, a.peer);
    text.put_field(b" own ", a.next);
    put_preference(text, a.preferred);
    text.put_word(b"\n");
}

// The state of an association.
pub(crate) fn put_state(text: &mut Text, a: &Association)
    ensures { Put (state_text a.now) text.old text.new }
{
    put_head(text, a);
    put_slots(text, &a.slots);
}
