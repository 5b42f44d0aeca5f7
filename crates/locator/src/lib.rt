// A locator of a LOCATOR_SET, and what refusal 6 refuses of it. Depends on address, octets, refusal.
#![tactic(auto)]

ghost use Rattle.std.specs.Prelude.{◌≡◌, ◌+◌, ◌≤◌, ◌<◌, length};
ghost use Rattle.locator.specs.Locators.{ill_form, spi_at, locator_step_at};

use address::Address;
use refusal::Refusal;

// The bytes of a locator before its SPI or address, the unit that its length counts, and the least that one takes.
pub const HEAD_SIZE: usize = 8;

pub const UNIT: usize = 4;

pub const LEAST_SIZE: usize = 24;

// The locator type that has an SPI.
pub const SPI_TYPE: u8 = 1;

// A locator as a set lists it. `kind` is its locator type, and `spi` the SPI of a type 1 locator, 0 for type 0. They stay two numbers: the definitions and the
// laws of what is written and read back speak of both, and an Option would pad each of the eight entries of a set.
#[derive(Clone, Copy)]
pub struct ListedLocator {
    pub address: Address,
    pub lifetime: u32,
    pub spi: u32,
    pub traffic: u8,
    pub kind: u8,
    pub preferred: bool,
}

// The locator at `at`, of which the eight bytes of the head are there, has a form that refusal 6 refuses.
#[tactic(auto, unfolding(crate::specs::Locators::ill_form))]
fn ill_form(s: &[u8], at: usize) -> bool
    requires { at + 8 ≤ length s.now }
    ensures { result ≡ ill_form s.now at }
{
    let kind = octets::byte(s[at + 1]);
    let units = octets::byte(s[at + 2]);
    s.len() < at + HEAD_SIZE + UNIT * units
        || 2 < s[at]
        || 1 < kind
        || units != 4 + kind
        || octets::u32_at(s, at + 4) == 0
}

// The SPI of the locator at `at`: 0 for type 0, which has none.
fn spi_at(s: &[u8], at: usize) -> u32
    requires { at + 8 ≤ length s.now }
    ensures { result ≡ spi_at s.now at }
{
    if s[at + 1] == 0 {
        0
    } else {
        octets::u32_at(s, at + HEAD_SIZE)
    }
}

// One step of the walk over a set, for every place of any slice: the locator at `at` and where the next one starts, or refusal 6.
#[tactic(auto, using(crate::proofs::Entries::step_short))]
pub fn locator_step(s: &[u8], at: usize) -> Result<(ListedLocator, usize), Refusal>
    ensures { result ≡ locator_step_at s.now at }
{
    if s.len().saturating_sub(at) < LEAST_SIZE || ill_form(s, at) {
        return Err(Refusal::BadLocatorSet);
    }
    let address = address::address_at(s, at + HEAD_SIZE + UNIT * octets::byte(s[at + 1]));
    if !address::is_legal(address) {
        return Err(Refusal::BadLocatorSet);
    }
    let listed = ListedLocator {
        address,
        lifetime: octets::u32_at(s, at + 4),
        spi: spi_at(s, at),
        traffic: s[at],
        kind: s[at + 1],
        preferred: s[at + 3] % 2 == 1,
    };
    Ok((listed, at + HEAD_SIZE + UNIT * octets::byte(s[at + 2])))
}
