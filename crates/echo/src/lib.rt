// For the log: the part of a packet that echoes a nonce. Depends on frame, parameter.
#![tactic(auto)]

ghost use Rattle.std.specs.Prelude.{◌≡◌, ◌+◌, ◌≤◌, length};
ghost use Rattle.echo.specs.Parts.{echoes, place_of, Part};

use frame::Occurrence;
use parameter::NONCE_SIZE;

// A part of a packet: where it starts and how long it is. An empty one at the packet's end stands for none, and no Option does, since that part is handed back
// (`place_of`).
#[derive(Clone, Copy)]
pub struct Place {
    pub start: usize,
    pub len: usize,
}

// The first echo response, if there is one, is the nonce.
#[tactic(auto, unfolding(crate::specs::Parts::echoes))]
fn is_echo(packet: &[u8], echo: Occurrence, nonce: &[u8]) -> bool
    requires { echo.body + echo.len ≤ length packet.now }
    ensures { result ≡ echoes packet.now echo nonce.now }
{
    echo.times != 0 && echo.len == NONCE_SIZE && &packet[echo.body..echo.body + NONCE_SIZE] == nonce
}

// Where the part that echoes the nonce lies: empty at the packet's end where no part does.
#[tactic(auto, using(crate::proofs::Places::place_short, crate::proofs::Places::place_refused, crate::proofs::Places::echo_within, crate::proofs::Places::place_missed, crate::proofs::Places::place_found))]
pub fn echo_place(packet: &[u8], nonce: &[u8]) -> Place
    ensures { result ≡ place_of packet.now nonce.now }
{
    let nowhere = Place {
        start: packet.len(),
        len: 0,
    };
    if nonce.len() != NONCE_SIZE {
        return nowhere;
    }
    let Ok(seen) = frame::walk(packet) else {
        return nowhere;
    };
    if !is_echo(packet, seen.echo, nonce) {
        return nowhere;
    }
    Place {
        start: seen.echo.body,
        len: NONCE_SIZE,
    }
}

// The packet's own part at that place. It is lent for as long as the packet is, whatever becomes of the nonce.
#[tactic(auto, using(crate::proofs::Places::place_within))]
pub fn echo_part<'p, 'n>(packet: &'p [u8], nonce: &'n [u8]) -> &'p [u8]
    ensures { Part packet.entry (place_of packet.now nonce.now) result }
{
    let place = echo_place(packet, nonce);
    &packet[place.start..place.start + place.len]
}
