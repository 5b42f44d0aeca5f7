// What a Move comes to that refusals 7 to 10 judged: one of them, a repeat, or refusal 11 by the checks that steps 1 to 5 bring, the association after it and
// the reply. Depends on steps, answer, judge, place, checks, reply, update, association, credit, packet and refusal.
#![tactic(auto)]

ghost use Rattle.std.specs.Prelude.{◌≡◌, false, ◌≤◌, ◌<◌, length};
ghost use Rattle.credit.specs.Clock.{time_limit};
ghost use Rattle.slot.specs.Found.{slot_count};
ghost use Rattle.reply_form.specs.Replies.{overwritten};
ghost use Rattle.update.specs.Refusals.{reply_room, refusal11};
ghost use Rattle.update.specs.Messages as messages;
ghost use Rattle.accept.specs.Judged.{judged};
ghost use Rattle.accept.specs.Room.{guarded};

use association::Association;
use credit::TIME_LIMIT;
use locator::ListedLocator;
use packet::MoveFields;
use readdress::Placement;
use refusal::Refusal;
use reply_form::NONCE_COUNT;
use update::{MessageAnswer, Received};

// What a Move is that none of refusals 7 to 10 stops: a repeat, or new.
#[derive(Clone, Copy, PartialEq, Eq)]
pub enum Judgement {
    Repeats,
    Passes,
}

// The answer to a repeat: the ACK again, and nothing changed. That the buffer has room is a clause and no type, as in crate respond.
fn repeated(a: Association, id: u32, buffer: &mut [u8]) -> MessageAnswer
    requires { reply_room ≤ length buffer.old }
    ensures value { result ≡ messages.answer_of (messages.repeated a id) }
    ensures buffer_after { buffer.new ≡ overwritten (messages.repeated a id).reply buffer.old }
{
    let written = reply::write_ack(buffer, id);
    MessageAnswer {
        outcome: Ok(Received::Repeated),
        written,
        checks: 0,
        keymat: 0,
        association: a,
    }
}

// The association after a Move: steps 1 to 5 made `placed`, which brings so many checks.
fn after_move(
    a: Association,
    m: MoveFields,
    listed: &[ListedLocator],
    nonces: &[u64; NONCE_COUNT],
    placed: Placement,
    checks: usize,
) -> Association
    requires placed_value { (placed ≡ messages.placement a m listed.now) × (checks ≡ messages.checks_of a m listed.now) }
    requires checks_value { refusal11 a.next checks ≡ false }
    ensures { result ≡ messages.after_move a m listed.now nonces.now }
{
    // Step 6: the locator with P becomes preferred.
    let preferred = place::prefer(&placed, listed);
    let mut slots = placed.slots;
    checks::give_checks(&mut slots, listed, a.time, a.next, nonces);
    // Steps 2 and 7: NEW SPI becomes the outbound SPI, and the peer's Update ID is stored. The own IDs that the checks took are used up.
    Association {
        outbound: m.new,
        peer: Some(m.id),
        next: a.next + checks as u64,
        preferred,
        slots,
        ..a
    }
}

// The answer to an accepted Move.
fn moved(
    a: Association,
    m: MoveFields,
    listed: &[ListedLocator],
    nonces: &[u64; NONCE_COUNT],
    placed: Placement,
    checks: usize,
    buffer: &mut [u8],
) -> MessageAnswer
    requires placed_value { (placed ≡ messages.placement a m listed.now) × (checks ≡ messages.checks_of a m listed.now) }
    requires checks_le_slot_count { (checks ≤ slot_count) × (refusal11 a.next checks ≡ false) }
    requires reply_room_in_bounds { reply_room ≤ length buffer.old }
    ensures value { result ≡ messages.answer_of (messages.moved a m listed.now nonces.now) }
    ensures buffer_after { buffer.new ≡ overwritten (messages.moved a m listed.now nonces.now).reply buffer.old }
{
    let written = reply::write_move(buffer, a.inbound, m.id, a.next, nonces, checks);
    let association = after_move(a, m, listed, nonces, placed, checks);
    MessageAnswer {
        outcome: Ok(Received::Moved),
        written,
        checks,
        keymat: m.keymat,
        association,
    }
}

// Answers a Move that refusals 0 to 10 let pass: steps 1 to 7, and refusal 11 by the checks that they bring.
fn accept_move(
    a: Association,
    m: MoveFields,
    listed: &[ListedLocator],
    nonces: &[u64; NONCE_COUNT],
    buffer: &mut [u8],
) -> MessageAnswer
    requires time_lt_time_limit { a.time < time_limit }
    requires reply_room_in_bounds { reply_room ≤ length buffer.old }
    ensures value { result ≡ messages.answer_of (messages.accepted a m listed.now nonces.now) }
    ensures buffer_after { buffer.new ≡ overwritten (messages.accepted a m listed.now nonces.now).reply buffer.old }
{
    let placed = steps::take_steps(&a, m, listed);
    let checks = checks::count_checks(&placed.slots, listed);
    // Refusal 11: no own Update IDs are left for the checks that steps 1 to 5 bring.
    if judge::is_used_up(a.next, checks) {
        return answer::declined(a, Refusal::UpdateIdsUsedUp);
    }
    moved(a, m, listed, nonces, placed, checks, buffer)
}

// Answers a Move that is judged so.
pub fn answer_move(
    a: Association,
    m: MoveFields,
    listed: &[ListedLocator],
    nonces: &[u64; NONCE_COUNT],
    judgement: Result<Judgement, Refusal>,
    buffer: &mut [u8],
) -> MessageAnswer
    ensures value { result ≡ messages.answer_of (guarded (length buffer.old) a (judged a m listed.now nonces.now judgement)) }
    ensures buffer_after { buffer.new ≡ overwritten (guarded (length buffer.old) a (judged a m listed.now nonces.now judgement)).reply buffer.old }
{
    // Refusals 0 and 1, as far as what follows rests on them. `message::receive` has tried them.
    if TIME_LIMIT <= a.time {
        return answer::declined(a, Refusal::BadAssociation);
    }
    if judge::is_short_buffer(buffer.len()) {
        return answer::declined(a, Refusal::ShortReplyBuffer);
    }
    match judgement {
        Err(why) => answer::declined(a, why),
        Ok(Judgement::Repeats) => repeated(a, m.id, buffer),
        Ok(Judgement::Passes) => accept_move(a, m, listed, nonces, buffer),
    }
}
