// The refusals of document 01's table and of the orders after it, as one enum for every call. Depends on nothing.
#![tactic(auto)]

ghost use Rattle.std.specs.Prelude.{◌≡◌};
ghost use Rattle.refusal.specs.Table.{number_of};

// One case for each refusal, with the number that the papers give it. `number_of` in specs/ has the numbers.
#[derive(Clone, Copy, PartialEq, Eq, Debug)]
pub enum Refusal {
    BadAssociation = 0,
    ShortReplyBuffer = 1,
    NotAuthentic = 2,
    Malformed = 3,
    UnknownParameter = 4,
    UnknownMessage = 5,
    BadLocatorSet = 6,
    StaleUpdateId = 7,
    UnmatchedEcho = 8,
    WrongSpi = 9,
    RepeatedNonce = 10,
    UpdateIdsUsedUp = 11,
    BadTime = 12,
    BadSize = 13,
    NoPath = 14,
    NoCredit = 15,
    BadStart = 16,
    BadListSize = 17,
    BadList = 18,
    BadInboundSpi = 19,
    NoUpdateIdLeft = 20,
    ShortBuffer = 21,
    LongOpaque = 22,
    ShortTickBuffer = 23,
}

// The refusal's number. It stays a function beside the enum's own numbers: pages, programs and the definition's edits name it.
pub fn number(refusal: Refusal) -> u8
    ensures { result ≡ number_of refusal }
{
    refusal as u8
}
