// What a message does to the slots: steps 1 to 6 of document 01, the new checks, and refusals 8 and 10. Depends on packet, path, slots and slot.
// Definitions, laws and the types that they are about. The code that meets them stands in the crates above.
#![tactic(auto)]

use slot::{SLOT_COUNT, Slot};

// The slots, and the slot among them that the peer prefers.
#[derive(Clone, Copy)]
pub struct Placement {
    pub slots: [Slot; SLOT_COUNT],
    pub preferred: Option<usize>,
}
