// What is written back: the bytes of a reply, and what the lent buffer holds after it. Depends on parameter and octets. Definitions and laws; the code that
// meets them stands in `reply`.
#![tactic(auto)]

// The nonces that a message brings.
pub const NONCE_COUNT: usize = 8;
