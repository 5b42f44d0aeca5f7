// Our own announcement: the list that we announce, the bytes that are written for it, refusals 17 to 21, and the whole answer of the call. Depends on
// association, reply_form, locator_set, locator and parameter. Definitions, laws and the types that they are about; the code that meets them stands in
// `own_list` and `announce`.
#![tactic(auto)]

use address::Address;
use association::Association;
use refusal::Refusal;

// An entry of our list: a locator that we announce. `kind` is its locator type. It and the traffic type are numbers, since refusal 18 is about those that a
// host may hand in and nobody knows.
#[derive(Clone, Copy)]
pub struct OwnLocator {
    pub address: Address,
    pub lifetime: u32,
    pub kind: u8,
    pub traffic: u8,
    pub preferred: bool,
}

// The answer to the call: how many bytes were written, 0 where it is refused, and the association after it; see clock's answer to a tick.
#[derive(Clone, Copy)]
pub struct Announcement {
    pub outcome: Result<(), Refusal>,
    pub written: usize,
    pub association: Association,
}
