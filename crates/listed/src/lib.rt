// Questions about the locators that a Move lists. Depends on locator and address, and on update and readdress for their definitions.
#![tactic(auto)]

ghost use Rattle.std.specs.Prelude.{◌≡◌};
ghost use Rattle.std.specs.List.{list_any};
ghost use Rattle.readdress.specs.Steps.{is_listed};
ghost use Rattle.update.specs.Refusals.{other_spi};

use address::Address;
use locator::{ListedLocator, SPI_TYPE};

// One of them has the address.
pub fn is_listed(listed: &[ListedLocator], address: Address) -> bool
    ensures { result ≡ is_listed address listed.now }
{
    listed.iter().any(|entry| address == entry.address)
}

// One of them is of type 1, with an SPI that is not NEW SPI.
pub fn has_other_spi(listed: &[ListedLocator], new: u32) -> bool
    ensures { result ≡ list_any (other_spi new) listed.now }
{
    listed
        .iter()
        .any(|entry| entry.kind == SPI_TYPE && entry.spi != new)
}
