// The numbers of credit and clock: their limits, what an arrival adds, and what ageing takes. Depends on nothing.
#![tactic(auto)]

ghost use Rattle.std.specs.Prelude.{◌≡◌};
ghost use Rattle.credit.specs.Credit.{refusal13, credited, covers};
ghost use Rattle.credit.specs.Clock.{refusal12, ageings, aged_once, aged_by, credit_at, last_ageing};

// The credit that is never exceeded, in bytes.
pub const CREDIT_LIMIT: u64 = 1048576;

// The sizes that a payload may have, in bytes.
pub const LEAST_SIZE: u64 = 1;

pub const MOST_SIZE: u64 = 65535;

// No time is this late: 2^40 seconds.
pub const TIME_LIMIT: u64 = 1099511627776;

// The seconds from one ageing to the next.
pub const AGEING_INTERVAL: u64 = 5;

// Refusal 13: the size is outside the limit.
pub fn is_bad_size(size: u64) -> bool
    ensures { result ≡ refusal13 size }
{
    size < LEAST_SIZE || MOST_SIZE < size
}

// The credit after an arrival, which stops at the limit.
pub fn add_arrival(credit: u64, size: u64) -> u64
    ensures { result ≡ credited credit size }
{
    credit.saturating_add(size).min(CREDIT_LIMIT)
}

// The credit is higher than the size.
pub fn is_covered(credit: u64, size: u64) -> bool
    ensures { result ≡ covers credit size }
{
    size < credit
}

// Refusal 12: the time is before the stored time, or too late.
pub fn is_bad_time(stored: u64, time: u64) -> bool
    ensures { result ≡ refusal12 stored time }
{
    time < stored || TIME_LIMIT <= time
}

// How many ageings a tick at the time makes: one for each whole interval since the last ageing.
fn count_ageings(last: u64, time: u64) -> u64
    ensures { result ≡ ageings last time }
{
    time.saturating_sub(last) / AGEING_INTERVAL
}

// The credit after one ageing. It is taken in eighths, so that no credit overflows.
fn age_once(credit: u64) -> u64
    ensures { result ≡ aged_once credit }
{
    7 * (credit / 8) + 7 * (credit % 8) / 8
}

// The credit after so many ageings, one after the other. A credit of 0 stays 0, so it ends there: whatever the count, no more rounds are made than the credit lasts,
// which is some hundred from the limit. The loop is no `for` over the count, since its measure is to say that: `for` would bound the rounds by the count alone.
#[tactic(auto, using(crate::proofs::Ageing::none_made, crate::proofs::Ageing::ends_at_none, crate::proofs::Ageing::round_more, crate::proofs::Ageing::round_less))]
fn age_by(count: u64, credit: u64) -> u64
    ensures { result ≡ aged_by count credit }
{
    let mut made = 0;
    let mut aged = credit;
    while made < count && aged != 0 {
        aged = age_once(aged);
        made += 1;
    }
    aged
}

// The credit at a time: each whole interval since the last ageing ages it.
pub fn age_credit(last: u64, time: u64, credit: u64) -> u64
    ensures { result ≡ credit_at last time credit }
{
    age_by(count_ageings(last, time), credit)
}

// The time of the last ageing, after a tick at the time: what is left of an interval counts towards the next.
pub fn age_clock(last: u64, time: u64) -> u64
    ensures { result ≡ last_ageing last time }
{
    last + count_ageings(last, time) * AGEING_INTERVAL
}
