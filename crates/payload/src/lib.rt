// The calls about payload: an arrival earns credit, and a send is granted a slot or refused. Depends on association, credit, path, slot,
// refusal.
#![tactic(auto)]

ghost use Rattle.std.specs.Prelude.{◌≡◌};
ghost use Rattle.payload.specs.Calls.{arrival_of, send_of};
ghost use Rattle.payload.specs.Ends.{judged, arrived, sent};

use association::{Answer, Association};
use path::Path;
use refusal::Refusal;

// The answer to a send, with the association after it. The packet may go to the slot named, or it may not, by the reason that the refusal names.
// It is a type of its own beside association's answer, as the definitions of both calls name them.
#[derive(Clone, Copy)]
pub struct SendAnswer {
    pub outcome: Result<usize, Refusal>,
    pub association: Association,
}

// What both calls are refused for: 0, and then 13.
fn judge(a: &Association, size: u64) -> Result<(), Refusal>
    ensures { result ≡ judged a.now size }
{
    if association::is_bad_association(a) {
        return Err(Refusal::BadAssociation);
    }
    if credit::is_bad_size(size) {
        return Err(Refusal::BadSize);
    }
    Ok(())
}

// The credit after an arrival.
#[tactic(auto, unfolding(crate::specs::Calls::arrival_of))]
fn credit_after(a: &Association, size: u64) -> Result<u64, Refusal>
    ensures { arrived a.now result ≡ arrival_of a.now size }
{
    judge(a, size)?;
    Ok(credit::add_arrival(a.credit, size))
}

// An arrival of a size: refused with 0 or 13, or its size is added to the credit.
pub fn arrival(a: Association, size: u64) -> Answer
    ensures { result ≡ arrival_of a size }
{
    match credit_after(&a, size) {
        Ok(credit) => Answer {
            outcome: Ok(()),
            association: Association { credit, ..a },
        },
        Err(why) => Answer {
            outcome: Err(why),
            association: a,
        },
    }
}

// The slot that a send is granted, and the credit after it: only a grant to UNVERIFIED takes credit.
#[tactic(auto, unfolding(crate::specs::Calls::send_of))]
fn grant(a: &Association, size: u64) -> Result<(usize, u64), Refusal>
    ensures { sent a.now result ≡ send_of a.now size }
{
    judge(a, size)?;
    match path::pick(&a.slots, a.preferred) {
        Path::NoCarrier => Err(Refusal::NoPath),
        Path::ToActive(i) => Ok((i, a.credit)),
        Path::ToUnverified(i) if credit::is_covered(a.credit, size) => Ok((i, a.credit - size)),
        Path::ToUnverified(_) => Err(Refusal::NoCredit),
    }
}

// A send of a size: refused with 0, 13, 14 or 15, or granted the slot that is picked.
pub fn send(a: Association, size: u64) -> SendAnswer
    ensures { result ≡ send_of a size }
{
    match grant(&a, size) {
        Ok((slot, credit)) => SendAnswer {
            outcome: Ok(slot),
            association: Association { credit, ..a },
        },
        Err(why) => SendAnswer {
            outcome: Err(why),
            association: a,
        },
    }
}
