// The checks that a tick sends again: their bytes, written into the buffer that the caller lends, and the slots after them. Depends on reply, reply_form,
// parameter, slots, slot and check_times. The functions take the slots and not the association, so that they serve an association with several sets of slots.
#![tactic(auto)]

ghost use Rattle.std.specs.Prelude.{◌+◌, ◌≤◌, ◌≡◌, length};
ghost use Rattle.writer.specs.Writes.{written_at};
ghost use Rattle.reply_form.specs.Replies.{resend_size, resend_bytes, overwritten};
ghost use Rattle.slot.specs.Checks.{resend_slot};
ghost use Rattle.slots.specs.Rules.{resend_all};
ghost use Rattle.resend.specs.Resends.{tick_room, refusal23, slot_bytes, resent_bytes, sent_slots, sent_bytes};

use parameter::SEQ;
use reply::{ACK_SIZE, ECHO_REQUEST_SIZE, ESP_INFO_SIZE};
use slot::{Locator, SLOT_COUNT, Slot, Status};

// Where ECHO_REQUEST_SIGNED stands in a check that is sent again: after ESP_INFO and SEQ, whose size is an ACK's.
const ECHO_REQUEST_AT: usize = ESP_INFO_SIZE + ACK_SIZE;

// The bytes of a check that is sent again.
pub const RESEND_SIZE: usize = ECHO_REQUEST_AT + ECHO_REQUEST_SIZE;

// What the resends of all slots may take.
pub const TICK_ROOM: usize = SLOT_COUNT * RESEND_SIZE;

// Refusal 23: the resends of a tick may not fit.
pub fn is_short_buffer(room: usize) -> bool
    ensures { result ≡ refusal23 room }
{
    room < TICK_ROOM
}

// Writes a check again: ESP_INFO, SEQ and ECHO_REQUEST_SIGNED.
#[tactic(auto, using(crate::proofs::Written::resend_written))]
fn put_resend(buffer: &mut [u8], at: usize, inbound: u32, id: u32, nonce: u64)
    requires { at + resend_size ≤ length buffer.old }
    ensures { buffer.new ≡ written_at at (resend_bytes inbound id nonce) buffer.old }
{
    reply::put_esp_info(buffer, at, 0, inbound, inbound);
    reply::put_number(buffer, at + ESP_INFO_SIZE, SEQ as u16, id);
    reply::put_echo_request(buffer, at + ECHO_REQUEST_AT, nonce);
}

// Writes the check in the slot again where it is due, with the moments reached as its count, and says how many bytes that is.
#[tactic(auto, using(reply_form::proofs::Sizes::resend_length, writer::proofs::Writes::written_none))]
fn send_due(buffer: &mut [u8], at: usize, inbound: u32, slot: &mut Slot, time: u64) -> usize
    requires { at + resend_size ≤ length buffer.old }
    ensures value { result ≡ length (slot_bytes inbound time slot.old) }
    ensures small { result ≤ resend_size }
    ensures buffer_after { buffer.new ≡ written_at at (slot_bytes inbound time slot.old) buffer.old }
    ensures slot_after { slot.new ≡ resend_slot time slot.old }
{
    match &mut slot.holding {
        Some(
            Locator {
                status: Status::Unverified(check),
                ..
            },
        ) if check_times::is_due(check.issued, check.resends, time) => {
            put_resend(buffer, at, inbound, check.id, check.nonce);
            check.resends = check_times::reached(check.issued, time);
            RESEND_SIZE
        }
        _ => 0,
    }
}

// Sends the checks that are due again, in slot order from the buffer's start on, and says how many bytes that is. Where the buffer is too short for all there
// could be, nothing is done.
pub fn resend_all(
    buffer: &mut [u8],
    inbound: u32,
    slots: &mut [Slot; SLOT_COUNT],
    time: u64,
) -> usize
    ensures value { result ≡ length (sent_bytes (length buffer.old) inbound time slots.old) }
    ensures buffer_after { buffer.new ≡ overwritten (sent_bytes (length buffer.old) inbound time slots.old) buffer.old }
    ensures slots_after { slots.new ≡ sent_slots (length buffer.old) time slots.old }
{
    if is_short_buffer(buffer.len()) {
        return 0;
    }
    let mut at = 0;
    for slot in slots.iter_mut() {
        at += send_due(buffer, at, inbound, slot, time);
    }
    at
}
