// The list of our own locators that a record of a trace holds, and the numbers of a section. Depends on sections, announcement, locator_set, address,
// octets.
#![tactic(auto)]

ghost use Rattle.std.specs.Prelude.{◌≡◌, cond, eqb, leb};
ghost use Rattle.entries.specs.Numbers.{number_of, is_narrow};
ghost use Rattle.entries.specs.Entries.{entry_count, is_entry, are_entries, blank, entry_of, listed_at, list_of};

use address::Address;
use announcement::OwnLocator;
use locator_set::SET_LIMIT;
use sections::{Record, Section};
use std::array;

// The bytes of a number, and of an address.
pub const NUMBER_SIZE: usize = 8;

pub const ADDRESS_SIZE: usize = 16;

// What stands in a list where a record has no entry.
const NO_ENTRY: OwnLocator = OwnLocator {
    address: Address { high: 0, low: 0 },
    lifetime: 0,
    kind: 0,
    traffic: 0,
    preferred: false,
};

// Number k of a section, 0 where s ends before it does.
pub fn number(s: &[u8], section: Section, k: usize) -> u64
    ensures { result ≡ number_of s.now section k }
{
    octets::u64_at(
        s,
        section.start.saturating_add(k.saturating_mul(NUMBER_SIZE)),
    )
}

// The number, where it fits 32 bits.
pub fn narrow(n: u64) -> Option<u32>
    ensures { result ≡ cond (is_narrow n) (Some n) None }
{
    u32::try_from(n).ok()
}

// The number as a mark: 1 or 0.
pub fn mark(n: u64) -> Option<bool>
    ensures { result ≡ cond (leb n 1) (Some (eqb n 1)) None }
{
    match n {
        0 => Some(false),
        1 => Some(true),
        _ => None,
    }
}

// How many entries the list of a record has.
pub fn entry_count(found: Record) -> usize
    ensures { result ≡ entry_count found }
{
    sections::size(found.body) / ADDRESS_SIZE
}

// The bytes and a record of them go together here and in `trace`; a struct of both would be made at each call, since `sections` answers a record by its places.
// Entry k of a list; none where the list has fewer, or where a number of the entry is wider than it may be.
#[tactic(auto, unfolding(crate::specs::Entries::is_entry))]
fn entry_at(s: &[u8], found: Record, k: usize) -> Option<OwnLocator>
    ensures { result ≡ cond (is_entry s.now found k) (Some (entry_of s.now found k)) None }
{
    if entry_count(found) <= k {
        return None;
    }
    let numbers = found.numbers;
    let place = 2 + 4 * k;
    let kind = u8::try_from(number(s, numbers, place)).ok()?;
    let traffic = u8::try_from(number(s, numbers, place + 1)).ok()?;
    let lifetime = narrow(number(s, numbers, place + 2))?;
    let preferred = mark(number(s, numbers, place + 3))?;
    Some(OwnLocator {
        address: address::address_at(s, found.body.start + ADDRESS_SIZE * k),
        lifetime,
        kind,
        traffic,
        preferred,
    })
}

// Entry k is there, and of its widths. It is asked of every entry of a list, so it builds none.
#[tactic(auto, unfolding(crate::specs::Entries::is_entry))]
fn is_entry(s: &[u8], found: Record, k: usize) -> bool
    ensures { result ≡ is_entry s.now found k }
{
    if entry_count(found) <= k {
        return false;
    }
    let numbers = found.numbers;
    let place = 2 + 4 * k;
    u8::try_from(number(s, numbers, place)).is_ok()
        && u8::try_from(number(s, numbers, place + 1)).is_ok()
        && narrow(number(s, numbers, place + 2)).is_some()
        && mark(number(s, numbers, place + 3)).is_some()
}

// Every entry of the list is of its widths, also those past the eighth. The last is asked first, as in the definition, so a list that ends with a bad entry
// is refused at once. It is a `for`: with `all` over the range the proof did not close.
#[tactic(auto, using(crate::proofs::Lists::entries_none, crate::proofs::Lists::entries_less, crate::proofs::Lists::entries_fail))]
pub fn are_entries(s: &[u8], found: Record) -> bool
    ensures { result ≡ are_entries s.now found (entry_count found) }
{
    for k in (0..entry_count(found)).rev() {
        if !is_entry(s, found, k) {
            return false;
        }
    }
    true
}

// Entry k of a list, or a blank where there is none.
#[tactic(auto, unfolding(crate::specs::Entries::listed_at))]
fn listed_at(s: &[u8], found: Record, k: usize) -> OwnLocator
    ensures { result ≡ listed_at s.now found k }
{
    entry_at(s, found, k).unwrap_or(NO_ENTRY)
}

// The first eight entries of the list, with blanks after them.
pub fn list_in(s: &[u8], found: Record) -> [OwnLocator; SET_LIMIT]
    ensures { result ≡ list_of s.now found }
{
    array::from_fn(|k| listed_at(s, found, k))
}
