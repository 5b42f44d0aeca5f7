// The answers to a refused message and to a Reply. Depends on verify, update, association, packet and refusal.
#![tactic(auto)]

ghost use Rattle.std.specs.Prelude.{◌≡◌};
ghost use Rattle.update.specs.Messages as messages;

use association::Association;
use packet::EchoResponse;
use refusal::Refusal;
use update::{MessageAnswer, Received};

// The answer to a refused message: nothing is written, and the association is as it was handed in.
pub fn declined(a: Association, why: Refusal) -> MessageAnswer
    ensures { result ≡ messages.answer_of (messages.declined why a) }
{
    MessageAnswer {
        outcome: Err(why),
        written: 0,
        checks: 0,
        keymat: 0,
        association: a,
    }
}

// The answer to an accepted Reply: step 1 alone, and nothing is written.
fn replied(a: Association, echo: EchoResponse) -> MessageAnswer
    ensures { result ≡ messages.answer_of (messages.replied a echo) }
{
    let mut slots = a.slots;
    verify::verify_all(&mut slots, echo);
    MessageAnswer {
        outcome: Ok(Received::Replied),
        written: 0,
        checks: 0,
        keymat: 0,
        association: Association { slots, ..a },
    }
}

// Answers a Reply.
#[tactic(auto, unfolding(update::specs::Messages::handle_reply))]
pub fn handle_reply(a: Association, echo: EchoResponse) -> MessageAnswer
    ensures { result ≡ messages.answer_of (messages.handle_reply a echo) }
{
    // Refusal 8: the echo response answers no check.
    if verify::is_unmatched(&a.slots, echo) {
        declined(a, Refusal::UnmatchedEcho)
    } else {
        replied(a, echo)
    }
}
