// The call that moves the clock, and the checks that it sends again. Depends on association, credit, resend, slots, slot, refusal.
#![tactic(auto)]

ghost use Rattle.std.specs.Prelude.{false, ◌≡◌, length};
ghost use Rattle.reply_form.specs.Replies.{overwritten};
ghost use Rattle.resend.specs.Resends.{refusal23};
ghost use Rattle.clock.specs.Ticks as rules;
ghost use Rattle.clock.specs.Ends.{judged, refused_with};

use association::Association;
use refusal::Refusal;

// The answer to a tick: how many bytes of checks that are sent again were written, 0 where it is refused, and the association after it. The count stands beside
// the outcome and not in it, since `history` reads the outcomes of a start, an arrival, a tick and an announcement as one type.
#[derive(Clone, Copy)]
pub struct TickAnswer {
    pub outcome: Result<(), Refusal>,
    pub written: usize,
    pub association: Association,
}

// The answer to a refused tick: nothing is written, and the association is as it was handed in.
fn declined(a: Association, why: Refusal) -> TickAnswer
    ensures { result ≡ refused_with why a }
{
    TickAnswer {
        outcome: Err(why),
        written: 0,
        association: a,
    }
}

// What a tick is refused for: 0, 23, or 12.
fn judge(a: &Association, time: u64, room: usize) -> Result<(), Refusal>
    ensures { result ≡ judged a.now time room }
{
    // Refusal 0: no call makes such an association.
    if association::is_bad_association(a) {
        return Err(Refusal::BadAssociation);
    }
    // Refusal 23: the buffer may not hold the checks that are sent again.
    if resend::is_short_buffer(room) {
        return Err(Refusal::ShortTickBuffer);
    }
    // Refusal 12: the time is before the stored time, or too late.
    if credit::is_bad_time(a.time, time) {
        return Err(Refusal::BadTime);
    }
    Ok(())
}

// The answer to an accepted tick: locators that are over are DEPRECATED, checks that are due are sent again, and credit is aged where that is due.
fn advance(a: Association, time: u64, buffer: &mut [u8]) -> TickAnswer
    requires { refusal23 (length buffer.old) ≡ false }
    ensures value { result ≡ rules.answer_of (rules.passed a time) }
    ensures buffer_after { buffer.new ≡ overwritten (rules.resends a time) buffer.old }
{
    let mut slots = a.slots;
    slots::expire_all(&mut slots, time);
    let written = resend::resend_all(buffer, a.inbound, &mut slots, time);
    TickAnswer {
        outcome: Ok(()),
        written,
        association: Association {
            time,
            aged: credit::age_clock(a.aged, time),
            credit: credit::age_credit(a.aged, time, a.credit),
            slots,
            ..a
        },
    }
}

// A tick at a time: the association, the time, and the buffer for the checks that are sent again. Refused with 0, 23 or 12, it leaves the association and the
// buffer as they were lent.
#[tactic(auto, unfolding(crate::specs::Ticks::handled))]
pub fn tick(a: Association, time: u64, buffer: &mut [u8]) -> TickAnswer
    ensures value { result ≡ rules.tick_of a time buffer.old }
    ensures buffer_after { buffer.new ≡ rules.buffer_after a time buffer.old }
{
    match judge(&a, time, buffer.len()) {
        Ok(()) => advance(a, time, buffer),
        Err(why) => declined(a, why),
    }
}
