// A Check: refusals 22 and 7, Repeated, and the answer with the same opaque bytes. Check is order 1's term for the peer's check of one of our addresses.
// Depends on answer, judge, reply, text, parameter, update, association and refusal.
#![tactic(auto)]

ghost use Rattle.std.specs.Prelude.{◌≡◌, ◌+◌, ◌≤◌, length};
ghost use Rattle.parameter.specs.Parameters.{takes};
ghost use Rattle.writer.specs.Writes.{written_at};
ghost use Rattle.reply_form.specs.Replies.{echo_response_bytes, response_bytes, overwritten};
ghost use Rattle.update.specs.Refusals.{reply_room, opaque_limit, refusal22};
ghost use Rattle.update.specs.Messages as messages;
ghost use Rattle.respond.specs.Room.{roomy};

use association::Association;
use parameter::ECHO_RESPONSE_SIGNED;
use refusal::Refusal;
use reply::{ACK_SIZE, HEAD_SIZE};
use update::{MessageAnswer, Received};

// The opaque bytes that a Check may have.
pub const OPAQUE_LIMIT: usize = 64;

// The most bytes that padding takes, with one to spare.
const PADDING_ROOM: usize = 8;

// Refusal 22: the opaque bytes are more than 64.
pub fn is_long_opaque(opaque: &[u8]) -> bool
    ensures { result ≡ refusal22 opaque.now }
{
    OPAQUE_LIMIT < opaque.len()
}

// A Check that refusal 22 lets pass: its Update ID and its opaque bytes.
#[derive(Clone, Copy)]
struct ShortCheck<'p> {
    id: u32,
    opaque: &'p [u8],
    ghost few: { length opaque.now ≤ opaque_limit },
}

// Writes ECHO_RESPONSE_SIGNED with the opaque bytes, and its padding.
fn put_echo_response(buffer: &mut [u8], at: usize, check: &ShortCheck)
    requires { at + takes (length check.now.opaque.now) ≤ length buffer.old }
    ensures { buffer.new ≡ written_at at (echo_response_bytes check.now.opaque.now) buffer.old }
{
    let opaque = check.opaque;
    let len = opaque.len();
    let padding = parameter::taken_by(len as u16) - HEAD_SIZE - len;
    let zeros = [0u8; PADDING_ROOM];
    reply::put_head(buffer, at, ECHO_RESPONSE_SIGNED as u16, len as u16);
    text::put(buffer, at + HEAD_SIZE, opaque);
    text::put(buffer, at + HEAD_SIZE + len, &zeros[0..padding]);
}

// Writes the answer to a Check, and says how many bytes that is. That the buffer has room is a fact of one that is lent and changed, so it stands in clauses
// here and in crate accept: a type for it would hold the `&mut`, and be lent in turn.
fn write_response(buffer: &mut [u8], check: &ShortCheck) -> usize
    requires { reply_room ≤ length buffer.old }
    ensures value { result ≡ length (response_bytes check.now.id check.now.opaque.now) }
    ensures buffer_after { buffer.new ≡ overwritten (response_bytes check.now.id check.now.opaque.now) buffer.old }
{
    reply::write_ack(buffer, check.id);
    put_echo_response(buffer, ACK_SIZE, check);
    ACK_SIZE + parameter::taken_by(check.opaque.len() as u16)
}

// The answer to a Repeated Check: what it would get if it were new, and nothing changed.
fn repeated(a: Association, check: &ShortCheck, buffer: &mut [u8]) -> MessageAnswer
    requires { reply_room ≤ length buffer.old }
    ensures value { result ≡ messages.answer_of (messages.repeated_check a check.now.id check.now.opaque.now) }
    ensures buffer_after { buffer.new ≡ overwritten (response_bytes check.now.id check.now.opaque.now) buffer.old }
{
    let written = write_response(buffer, check);
    MessageAnswer {
        outcome: Ok(Received::Repeated),
        written,
        checks: 0,
        keymat: 0,
        association: a,
    }
}

// The association after a Check: its Update ID is the highest seen.
fn after_check(a: Association, id: u32) -> Association
    ensures { result ≡ messages.after_check a id }
{
    Association {
        peer: Some(id),
        ..a
    }
}

// The answer to a new Check: its Update ID is stored.
fn responded(a: Association, check: &ShortCheck, buffer: &mut [u8]) -> MessageAnswer
    requires { reply_room ≤ length buffer.old }
    ensures value { result ≡ messages.answer_of (messages.responded a check.now.id check.now.opaque.now) }
    ensures buffer_after { buffer.new ≡ overwritten (response_bytes check.now.id check.now.opaque.now) buffer.old }
{
    let written = write_response(buffer, check);
    MessageAnswer {
        outcome: Ok(Received::Responded),
        written,
        checks: 0,
        keymat: 0,
        association: after_check(a, check.id),
    }
}

// Answers a Check with this Update ID and these opaque bytes.
#[tactic(auto, unfolding(update::specs::Messages::handle_check))]
pub fn handle_check(a: Association, id: u32, opaque: &[u8], buffer: &mut [u8]) -> MessageAnswer
    ensures value { result ≡ messages.answer_of (roomy (length buffer.old) a (messages.handle_check a id opaque.now)) }
    ensures buffer_after { buffer.new ≡ overwritten (roomy (length buffer.old) a (messages.handle_check a id opaque.now)).reply buffer.old }
{
    // Refusal 1, as far as what follows rests on it. `message::receive` has tried it.
    if judge::is_short_buffer(buffer.len()) {
        return answer::declined(a, Refusal::ShortReplyBuffer);
    }
    // Refusal 22: the opaque bytes are too many.
    if is_long_opaque(opaque) {
        return answer::declined(a, Refusal::LongOpaque);
    }
    let check = ShortCheck { id, opaque };
    // Refusal 7: the Update ID is below the highest seen.
    if judge::is_stale(id, a.peer) {
        return answer::declined(a, Refusal::StaleUpdateId);
    }
    // It is the highest seen: Repeated.
    if judge::is_repeat(id, a.peer) {
        return repeated(a, &check, buffer);
    }
    responded(a, &check, buffer)
}
