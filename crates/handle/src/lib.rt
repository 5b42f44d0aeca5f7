// A Move that is read: refusals 7 to 10 in their order, and Repeated; what comes of that is `accept`'s. Depends on accept, judge, verify, checks, update,
// association, packet and refusal.
#![tactic(auto)]

ghost use Rattle.std.specs.Prelude.{◌≡◌, length};
ghost use Rattle.reply_form.specs.Replies.{overwritten};
ghost use Rattle.update.specs.Messages as messages;
ghost use Rattle.accept.specs.Judged.{judged};
ghost use Rattle.accept.specs.Room.{guarded};

use accept::Judgement;
use association::Association;
use locator::ListedLocator;
use packet::MoveFields;
use refusal::Refusal;
use reply_form::NONCE_COUNT;
use update::MessageAnswer;

// Tries refusals 7 to 10 in their order, and whether the Move is Repeated. A test is made where those before it have passed.
#[tactic(auto, unfolding(update::specs::Messages::handle_move))]
fn judge_move(
    a: &Association,
    m: MoveFields,
    listed: &[ListedLocator],
    nonces: &[u64; NONCE_COUNT],
) -> Result<Judgement, Refusal>
    ensures { judged a.now m listed.now nonces.now result ≡ messages.handle_move a.now m listed.now nonces.now }
{
    // Refusal 7: the Update ID is below the highest seen.
    if judge::is_stale(m.id, a.peer) {
        return Err(Refusal::StaleUpdateId);
    }
    // It is the highest seen: Repeated.
    if judge::is_repeat(m.id, a.peer) {
        return Ok(Judgement::Repeats);
    }
    // Refusal 8: the echo response answers no check.
    if verify::is_unmatched(&a.slots, m.echo) {
        return Err(Refusal::UnmatchedEcho);
    }
    // Refusal 9: the SPIs.
    if judge::is_wrong_spi(a.outbound, m.old, m.new, listed) {
        return Err(Refusal::WrongSpi);
    }
    // Refusal 10: the nonces are not new.
    if checks::is_repeated_nonce(nonces, &a.slots) {
        return Err(Refusal::RepeatedNonce);
    }
    Ok(Judgement::Passes)
}

// Answers a Move that lists these locators. The association, the Move, its list and the nonces go on to `accept`, which takes them apart: one struct of them would be
// made here alone.
pub fn handle_move(
    a: Association,
    m: MoveFields,
    listed: &[ListedLocator],
    nonces: &[u64; NONCE_COUNT],
    buffer: &mut [u8],
) -> MessageAnswer
    ensures value { result ≡ messages.answer_of (guarded (length buffer.old) a (messages.handle_move a m listed.now nonces.now)) }
    ensures buffer_after { buffer.new ≡ overwritten (guarded (length buffer.old) a (messages.handle_move a m listed.now nonces.now)).reply buffer.old }
{
    let judgement = judge_move(&a, m, listed, nonces);
    // The answer, and refusal 11 by the checks that steps 1 to 5 bring.
    accept::answer_move(a, m, listed, nonces, judgement, buffer)
}
