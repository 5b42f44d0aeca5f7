// The refusals of a message that are tests on numbers: 1, 2, 7, 9 and 11, and what is Repeated. Depends on update, listed, association and locator.
#![tactic(auto)]

ghost use Rattle.std.specs.Prelude.{◌≡◌};
ghost use Rattle.update.specs.Refusals.{refusal1, refusal2, refusal7, repeats, refusal9, refusal11};

use association::ID_LIMIT;
use locator::ListedLocator;

// What the reply of eight checks takes.
pub const REPLY_ROOM: usize = 384;

// Refusal 1: the reply buffer is too short.
pub fn is_short_buffer(room: usize) -> bool
    ensures { result ≡ refusal1 room }
{
    room < REPLY_ROOM
}

// Refusal 2: the message is not marked authentic.
pub fn is_not_authentic(authentic: bool) -> bool
    ensures { result ≡ refusal2 authentic }
{
    !authentic
}

// Refusal 7: the Update ID is below the highest seen.
pub fn is_stale(id: u32, peer: Option<u32>) -> bool
    ensures { result ≡ refusal7 id peer }
{
    peer.is_some_and(|highest| id < highest)
}

// The Update ID is the highest seen: the message is Repeated.
pub fn is_repeat(id: u32, peer: Option<u32>) -> bool
    ensures { result ≡ repeats id peer }
{
    peer.is_some_and(|highest| id == highest)
}

// Refusal 9: OLD SPI is not the outbound SPI, NEW SPI is 0, or a type 1 locator has another SPI than NEW SPI.
pub fn is_wrong_spi(outbound: u32, old: u32, new: u32, listed: &[ListedLocator]) -> bool
    ensures { result ≡ refusal9 outbound old new listed.now }
{
    old != outbound || association::is_unusable_spi(new) || listed::has_other_spi(listed, new)
}

// Refusal 11: the next own Update ID and the new checks come to more than 2^32.
pub fn is_used_up(next: u64, checks: usize) -> bool
    ensures { result ≡ refusal11 next checks }
{
    ID_LIMIT < next || ID_LIMIT - next < checks as u64
}
