// A parameter of an UPDATE packet: its type, its length, and one step of the walk over parameters. Depends on octets, refusal.
#![tactic(auto)]

ghost use Rattle.std.specs.Prelude.{◌≡◌};
ghost use Rattle.parameter.specs.Types.{refused_type, wrong_length};
ghost use Rattle.parameter.specs.Parameters.{takes, step_at};

use refusal::Refusal;

// The types of parameters that are known (document 01, "The bytes of a message"). They are numbers and no enum: their order is judged, and that of types
// which are not known.
pub const ESP_INFO: usize = 65;

pub const LOCATOR_SET: usize = 193;

pub const SEQ: usize = 385;

pub const ACK: usize = 449;

pub const HOST_ID: usize = 705;

pub const ECHO_REQUEST_SIGNED: usize = 897;

pub const ECHO_RESPONSE_SIGNED: usize = 961;

pub const HIP_MAC: usize = 61505;

pub const HIP_SIGNATURE: usize = 61697;

// The lengths L that two types must have, and the unit of an ACK's.
pub const ESP_INFO_LENGTH: usize = 12;

pub const SEQ_LENGTH: usize = 4;

const ACK_UNIT: usize = 4;

// The bytes of a nonce.
pub const NONCE_SIZE: usize = 8;

// A parameter takes a multiple of 8 bytes, so none takes less.
const LEAST_SIZE: usize = 8;

// A parameter: its type, its length L, where its L bytes start, and where the next parameter starts.
#[derive(Clone, Copy)]
pub struct Parameter {
    pub kind: usize,
    pub len: usize,
    pub body: usize,
    pub next: usize,
}

// The bytes that a parameter takes in all whose length L is this: its head and L bytes, up to a multiple of 8.
// It is no `next_multiple_of`: that was tried, and took four instructions more for each parameter of a walk.
pub fn taken_by(len: u16) -> usize
    ensures { result ≡ takes len }
{
    (usize::from(len) + 11) / 8 * 8
}

// A type that refusal 4 refuses.
#[tactic(auto, using(std::proofs::lemmas::Bool::Decides::nat_tests), unfolding(crate::specs::Types::refused_type))]
pub fn refused_type(kind: usize) -> bool
    ensures { result ≡ refused_type kind }
{
    match kind {
        ESP_INFO
        | LOCATOR_SET
        | SEQ
        | ACK
        | HOST_ID
        | ECHO_REQUEST_SIGNED
        | ECHO_RESPONSE_SIGNED
        | HIP_MAC
        | HIP_SIGNATURE => false,
        _ => kind % 2 == 1,
    }
}

// A length that refusal 3 refuses.
#[tactic(auto, using(std::proofs::lemmas::Bool::Decides::nat_tests), unfolding(crate::specs::Types::wrong_length))]
fn wrong_length(kind: usize, len: usize) -> bool
    ensures { result ≡ wrong_length kind len }
{
    match kind {
        ESP_INFO => len != ESP_INFO_LENGTH,
        SEQ => len != SEQ_LENGTH,
        ACK => len == 0 || len % ACK_UNIT != 0,
        _ => false,
    }
}

// One step of the walk over the parameters, for every place of any slice: the parameter at `at`, `None` at the end, or refusal 3.
pub fn step_at(packet: &[u8], at: usize) -> Result<Option<Parameter>, Refusal>
    ensures { result ≡ step_at packet.now at }
{
    if packet.len() <= at {
        return Ok(None);
    }
    let left = packet.len() - at;
    if left < LEAST_SIZE {
        return Err(Refusal::Malformed);
    }
    let kind = octets::u16_at(packet, at);
    let len = octets::u16_at(packet, at + 2);
    let size = taken_by(len as u16);
    if left < size || wrong_length(kind, len) {
        return Err(Refusal::Malformed);
    }
    Ok(Some(Parameter {
        kind,
        len,
        body: at + 4,
        next: at + size,
    }))
}
