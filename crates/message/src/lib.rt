// The message call: refusals 0 to 6 in their order, and then what `handle` makes of a Move, `answer` of a Reply and `respond` of a Check. Depends on handle,
// respond, answer, judge, update, association, packet and refusal. The packet is read once, by `packet`; nothing here or below reads its bytes again, but
// that a Check's opaque bytes are copied into the reply.
#![tactic(auto)]

ghost use Rattle.std.specs.Prelude.{◌≡◌};
ghost use Rattle.update.specs.Messages as messages;

use association::Association;
use packet::Message;
use refusal::Refusal;
use reply_form::NONCE_COUNT;
use update::MessageAnswer;

// Handles a message: the association, the packet's bytes, whether the host found it authentic, eight new nonces, and the buffer for the reply.
// A refusal leaves the association and the buffer as they were lent.
#[tactic(auto, unfolding(update::specs::Messages::handled))]
pub fn receive(
    a: Association,
    packet: &[u8],
    authentic: bool,
    nonces: [u64; NONCE_COUNT],
    buffer: &mut [u8],
) -> MessageAnswer
    ensures value { result ≡ messages.message_of a packet.now authentic nonces buffer.old }
    ensures buffer_after { buffer.new ≡ messages.buffer_after a packet.now authentic nonces buffer.old }
{
    // Refusal 0: no call makes such an association.
    if association::is_bad_association(&a) {
        return answer::declined(a, Refusal::BadAssociation);
    }
    // Refusal 1: the buffer may not hold the reply.
    if judge::is_short_buffer(buffer.len()) {
        return answer::declined(a, Refusal::ShortReplyBuffer);
    }
    // Refusal 2: the host did not mark the message authentic.
    if judge::is_not_authentic(authentic) {
        return answer::declined(a, Refusal::NotAuthentic);
    }
    match packet::read_packet(packet) {
        // Refusals 3 to 6: the packet's bytes.
        Err(why) => answer::declined(a, why),
        Ok(Message::Reply(echo)) => answer::handle_reply(a, echo),
        Ok(Message::Move(m, set)) => handle::handle_move(a, m, set.listed(), &nonces, buffer),
        Ok(Message::PeerCheck(c)) => {
            respond::handle_check(a, c.id, packet::opaque_part(packet, c), buffer)
        }
    }
}
