// The locators of a LOCATOR_SET and refusal 6. Depends on locator, address, refusal.
#![tactic(auto)]

ghost use Rattle.std.specs.Prelude.{◌≡◌, false, ◌<◌, take};
ghost use Rattle.std.specs.List.{list_any};
ghost use Rattle.address.specs.Rules.{same_address};
ghost use Rattle.locator_set.specs.Sets.{blanks, set_of};
ghost use Rattle.locator_set.specs.Buckets.{bucket_count, bucket_of, unused};

use address::Address;
use locator::ListedLocator;
use refusal::Refusal;

// The locators that a set may have.
pub const SET_LIMIT: usize = 8;

// The buckets that addresses fall into: so many that eight addresses seldom share one, and so few that they are soon cleared.
const BUCKET_COUNT: usize = 64;

// The locators that a set holds: the first `count` of the array, in order. Blanks come after them.
// Memory is fixed, so the count stands beside the array. No ghost field bounds it: a definition that makes a set would have to carry the proof.
#[derive(Clone, Copy)]
pub struct LocatorSet {
    pub listed: [ListedLocator; SET_LIMIT],
    pub count: usize,
}

impl LocatorSet {
    // The locators themselves.
    pub fn listed(&self) -> &[ListedLocator]
        ensures { result.now ≡ take self.now.count self.now.listed }
    {
        &self.listed[..self.count.min(SET_LIMIT)]
    }
}

// The bucket that an address falls into. Addresses in different ones differ.
fn bucket_of(address: Address) -> usize
    ensures { (result ≡ bucket_of address) × (result < bucket_count) }
{
    let buckets = BUCKET_COUNT as u64;
    ((address.high % buckets + address.low % buckets) % buckets) as usize
}

// The address is among the listed ones. Their buckets are used, so one whose bucket is not used is none of them and is compared with none.
fn is_twice(used: &[bool; BUCKET_COUNT], listed: &[ListedLocator], address: Address) -> bool
    requires { list_any (λ (l : ListedLocator). unused used.now l.address) listed.now ≡ false }
    ensures { result ≡ list_any (λ (l : ListedLocator). same_address address l.address) listed.now }
{
    used[bucket_of(address)] && listed.iter().any(|other| address == other.address)
}

// An array that lists no locator.
pub fn no_locators() -> [ListedLocator; SET_LIMIT]
    ensures { result ≡ blanks }
{
    let blank = ListedLocator {
        address: Address { high: 0, low: 0 },
        lifetime: 0,
        spi: 0,
        traffic: 0,
        kind: 0,
        preferred: false,
    };
    [blank; SET_LIMIT]
}

// The locators of a set, in one pass over its bytes, or refusal 6.
pub fn read_set(s: &[u8]) -> Result<LocatorSet, Refusal>
    ensures { result ≡ set_of s.now }
{
    if s.is_empty() {
        return Err(Refusal::BadLocatorSet);
    }
    let mut listed = no_locators();
    let mut used = [false; BUCKET_COUNT];
    let mut count = 0;
    let mut marked = 0;
    let mut at = 0;
    // No `for`: where the next locator starts is read of this one.
    while at < s.len() {
        let (locator, next) = locator::locator_step(s, at)?;
        marked += usize::from(locator.preferred);
        if count == SET_LIMIT || 1 < marked || is_twice(&used, &listed[..count], locator.address) {
            return Err(Refusal::BadLocatorSet);
        }
        used[bucket_of(locator.address)] = true;
        listed[count] = locator;
        count += 1;
        at = next;
    }
    Ok(LocatorSet { listed, count })
}
