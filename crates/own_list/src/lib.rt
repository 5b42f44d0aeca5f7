// The list that we announce: refusals 17 and 18 of it, and the size of its set. The entries are judged as they are held, and the answers are those of the
// bytes that would be written. Depends on announcement, locator_set, locator and address.
#![tactic(auto)]

ghost use Rattle.std.specs.Prelude.{◌≡◌, [], ℕ, ◌≤◌, length, take};
ghost use Rattle.std.specs.List.{list_any};
ghost use Rattle.address.specs.Rules.{same_address};
ghost use Rattle.locator_set.specs.Sets.{set_limit};
ghost use Rattle.announcement.specs.declared.OwnLocator as entries;
ghost use Rattle.announcement.specs.Written.{set_body};
ghost use Rattle.announcement.specs.Announcements.{refusal17, refusal18};
ghost use Rattle.announcement.specs.Sized.{Sized, AllSized};
ghost use Rattle.announcement.specs.Entries.{entry_size, set_size, ill_entry, twice_in, marks_in, ill_list};

use address::Address;
use announcement::OwnLocator;
use locator::{LEAST_SIZE as ENTRY_SIZE, SPI_TYPE};
use locator_set::SET_LIMIT;

// The bytes of an entry with an SPI.
const SPI_ENTRY_SIZE: usize = 28;

// Refusal 17: the list has no entry, or more than a set may have.
pub fn is_bad_count(count: usize) -> bool
    ensures { result ≡ refusal17 count }
{
    count == 0 || SET_LIMIT < count
}

// The list that we announce: no more entries than a set may have.
#[derive(Clone, Copy)]
pub struct OwnList<'l> {
    pub entries: &'l [OwnLocator],
    ghost few: { length entries.now ≤ set_limit },
}

// The first `count` entries of the array, or all that it has. A host hands in the array and the count, since refusal 17 is about a count that the array may
// not have.
pub fn first_entries(list: &[OwnLocator; SET_LIMIT], count: usize) -> OwnList
    ensures { result.entries.now ≡ take count list.now }
{
    OwnList {
        entries: &list[..count.min(SET_LIMIT)],
    }
}

// The entry is refused by itself. That its numbers are of their widths is said here, where it is known.
#[tactic(auto, unfolding(announcement::specs::Entries::ill_entry))]
fn is_ill(entry: &OwnLocator) -> bool
    ensures ill { result ≡ ill_entry entry.now }
    ensures sized { Sized entry.now }
{
    let e = *entry;
    2 < e.traffic || 1 < e.kind || e.lifetime == 0 || !address::is_legal(e.address)
}

// An entry is refused by itself. None is left out, so that all of them are known to be of their widths.
#[tactic(auto, using(crate::proofs::Judging::sized_more, std::proofs::lemmas::List::Folds::list_any_more), unfolding(announcement::specs::Sized::AllSized))]
fn any_ill(list: &[OwnLocator]) -> bool
    ensures ill { result ≡ list_any ill_entry list.now }
    ensures sized { AllSized list.now }
{
    let mut ill = false;
    for entry in list {
        ill |= is_ill(entry);
    }
    ill
}

// An entry has the address.
fn is_held(list: &[OwnLocator], address: Address) -> bool
    ensures { result ≡ list_any (λ (e : entries.OwnLocator). same_address address e.address) list.now }
{
    list.iter().any(|entry| address == entry.address)
}

// An entry has the address of one before it.
#[tactic(auto, using(crate::proofs::Judging::twice_none))]
fn any_twice(list: &[OwnLocator]) -> bool
    ensures { result ≡ twice_in [] list.now }
{
    for (i, entry) in list.iter().enumerate() {
        if is_held(&list[..i], entry.address) {
            return true;
        }
    }
    false
}

// How many entries have P.
#[tactic(auto, using(crate::proofs::Judging::marks_counted))]
fn count_marks(list: &[OwnLocator]) -> usize
    ensures { result ≡ marks_in 0 list.now }
{
    list.iter().filter(|entry| entry.preferred).count()
}

// The entries are refused, by themselves or together.
fn is_ill_list(list: &[OwnLocator]) -> bool
    ensures ill { result ≡ ill_list list.now }
    ensures sized { AllSized list.now }
{
    any_ill(list) || any_twice(list) || 1 < count_marks(list)
}

// Refusal 18: a set of these entries would be refused, whatever the new inbound SPI.
#[tactic(auto, using(crate::proofs::Judging::empty_refused, crate::proofs::Judging::list_refused_as))]
pub fn is_bad_list(list: &OwnList) -> bool
    ensures { (inbound : ℕ) → result ≡ refusal18 inbound list.now.entries.now }
{
    list.entries.is_empty() || is_ill_list(list.entries)
}

// The bytes that an entry takes.
fn entry_size(entry: &OwnLocator) -> usize
    ensures { (result ≡ entry_size entry.now) × (result ≤ 28) }
{
    if entry.kind == SPI_TYPE {
        SPI_ENTRY_SIZE
    } else {
        ENTRY_SIZE
    }
}

// The bytes that these entries take.
#[tactic(auto, using(crate::proofs::Judging::sizes_summed))]
fn entries_size(list: &[OwnLocator]) -> usize
    requires { length list.now ≤ set_limit }
    ensures { result ≡ set_size list.now }
{
    list.iter().map(|entry| entry_size(entry)).sum()
}

// The bytes that the set takes, whatever the new inbound SPI.
#[tactic(auto, using(announcement::proofs::Sizes::set_length, announcement::proofs::Sizes::set_most))]
pub fn set_size(list: &OwnList) -> usize
    ensures few { result ≤ 224 }
    ensures value { (inbound : ℕ) → result ≡ length (set_body inbound list.now.entries.now) }
{
    entries_size(list.entries)
}
