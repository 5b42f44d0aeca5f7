// New checks, and refusal 10. Depends on judge, listed, update, readdress, reply_form, association, locator, slots and slot.
#![tactic(auto)]

ghost use Rattle.std.specs.Prelude.{◌≡◌, ◌+◌, ◌≤◌, eqb};
ghost use Rattle.std.specs.List.{list_any};
ghost use Rattle.slot.specs.declared.Locator as locators;
ghost use Rattle.slot.specs.declared.Status.TheVariants.{Unverified};
ghost use Rattle.slot.specs.Found.{with_status, on_locator, slot_count};
ghost use Rattle.slots.specs.Rules.{is_outstanding};
ghost use Rattle.association.specs.Form.{id_limit};
ghost use Rattle.readdress.specs.Checks as rules;
ghost use Rattle.checks.specs.Given.{given};

use association::ID_LIMIT;
use locator::ListedLocator;
use reply_form::NONCE_COUNT;
use slot::{Check, SLOT_COUNT, Slot, Status};

// The nonce is one of the others.
fn is_one_of(nonce: u64, others: &[u64]) -> bool
    ensures { result ≡ list_any (eqb nonce) others.now }
{
    others.iter().any(|other| nonce == *other)
}

// Two of the nonces are equal.
fn any_twice(nonces: &[u64]) -> bool
    ensures { result ≡ rules.twice nonces.now }
{
    match nonces.split_first() {
        None => false,
        Some((nonce, others)) => is_one_of(*nonce, others) || any_twice(others),
    }
}

// One of the nonces is outstanding.
fn any_outstanding(nonces: &[u64], slots: &[Slot; SLOT_COUNT]) -> bool
    ensures { result ≡ list_any (is_outstanding slots.now) nonces.now }
{
    nonces
        .iter()
        .any(|nonce| slots::is_outstanding(slots, *nonce))
}

// Refusal 10: two offered nonces are equal, or one is outstanding.
pub fn is_repeated_nonce(nonces: &[u64; NONCE_COUNT], slots: &[Slot; SLOT_COUNT]) -> bool
    ensures { result ≡ rules.refusal10 nonces.now slots.now }
{
    any_twice(nonces) || any_outstanding(nonces, slots)
}

// The slot gets a new check: it holds a listed address that is DEPRECATED.
fn awaits(slot: &Slot, listed: &[ListedLocator]) -> bool
    ensures { result ≡ rules.awaits listed.now slot.now }
{
    slot.holding.is_some_and(|l| slot::is_deprecated(l.status)
        && listed::is_listed(listed, l.address))
}

// The number of new checks, which is at most the count of slots.
#[tactic(auto, using(crate::proofs::Counted::counted, crate::proofs::Counted::at_most_slots))]
pub fn count_checks(slots: &[Slot; SLOT_COUNT], listed: &[ListedLocator]) -> usize
    ensures { (result ≡ rules.check_count listed.now slots.now) × (result ≤ slot_count) }
{
    slots.iter().filter(|slot| awaits(slot, listed)).count()
}

// The slot with a check of this nonce and Update ID, issued now and not sent again yet.
fn with_check(slot: Slot, nonce: u64, id: u32, time: u64) -> Slot
    ensures { result ≡ on_locator (λ (l : locators.Locator). with_status l (Unverified (record { nonce = nonce; id = id; issued = time; resends = 0 }))) slot }
{
    let check = Check {
        nonce,
        issued: time,
        id,
        resends: 0,
    };
    Slot {
        holding: slot
            .holding
            .map(|l| slot::with_status(l, Status::Unverified(check))),
    }
}

// The slots with their new checks, which take the nonces and own Update IDs in order. `k` counts the checks and not the slots, so no iterator has it.
#[tactic(auto, unfolding(readdress::specs::Checks::checked, readdress::specs::Checks::check_count))]
fn deal(
    slots: &mut [Slot; SLOT_COUNT],
    listed: &[ListedLocator],
    time: u64,
    next: u64,
    nonces: &[u64; NONCE_COUNT],
)
    requires { next + rules.check_count listed.now slots.old ≤ id_limit }
    ensures { slots.new ≡ rules.checked listed.now time next nonces.now 0 slots.old }
{
    let mut k = 0;
    for slot in slots.iter_mut() {
        if awaits(slot, listed) {
            *slot = with_check(*slot, nonces[k], (next + k as u64) as u32, time);
            k += 1;
        }
    }
}

// The slots with their new checks, issued at the time, or as they are where own Update IDs do not suffice (refusal 11).
#[tactic(auto, using(crate::proofs::Counted::at_most_slots))]
pub fn give_checks(
    slots: &mut [Slot; SLOT_COUNT],
    listed: &[ListedLocator],
    time: u64,
    next: u64,
    nonces: &[u64; NONCE_COUNT],
)
    ensures { slots.new ≡ given listed.now time next nonces.now slots.old }
{
    // A slot gets at most one check: where there is an own Update ID for each slot, the checks need not be counted.
    if next <= ID_LIMIT - SLOT_COUNT as u64
        || !judge::is_used_up(next, count_checks(slots, listed))
    {
        deal(slots, listed, time, next, nonces);
    }
}
