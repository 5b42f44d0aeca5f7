// The message call: refusals 0 to 11 and 22, what an accepted message leaves and what is written back. Depends on readdress, reply_form, association and packet.
// Definitions, laws and the types that they are about. The code that meets them stands in the crates above.
#![tactic(auto)]

use association::Association;
use refusal::Refusal;

// What became of a message that is not refused: an accepted Move, Reply or Check, or a Move or a Check that is Repeated (document 01's term: its Update ID
// equals the highest seen).
#[derive(Clone, Copy, PartialEq, Eq)]
pub enum Received {
    Moved,
    Replied,
    Responded,
    Repeated,
}

// The answer to a message: what became of it, or its refusal; how many bytes of reply were written, how many new checks are among them, the KEYMAT Index, and
// the association after it.
#[derive(Clone, Copy)]
pub struct MessageAnswer {
    pub outcome: Result<Received, Refusal>,
    pub written: usize,
    pub checks: usize,
    pub keymat: u16,
    pub association: Association,
}
