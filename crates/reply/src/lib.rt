// The parameters of a reply, of a check that is sent again and of an announcement, and a reply as a whole, written into the buffer that the caller lends.
// Depends on reply_form, writer and parameter.
#![tactic(auto)]

ghost use Rattle.std.specs.Prelude.{◌+◌, ◌*◌, ◌%◌, ◌^◌, ◌≤◌, ◌≡◌, ◌++◌, length};
ghost use Rattle.octets.specs.Written.{bytes_of};
ghost use Rattle.parameter.specs.Written.{parameter_bytes};
ghost use Rattle.writer.specs.Writes.{written_at};
ghost use Rattle.reply_form.specs.Replies.{check_size, esp_info_with, echo_request_bytes, ack_bytes, check_bytes, checks_bytes, move_bytes, fitted, overwritten};

use parameter::{ACK, ECHO_REQUEST_SIGNED, ESP_INFO, ESP_INFO_LENGTH, NONCE_SIZE, SEQ, SEQ_LENGTH};
use reply_form::NONCE_COUNT;
use writer::{has_room, put_u16, put_u32, put_u64};

// The bytes of a parameter's type and length, and of each parameter that is written; an ACK's size is a SEQ's too.
pub const HEAD_SIZE: usize = 4;

pub const ESP_INFO_SIZE: usize = 16;

pub const ACK_SIZE: usize = 8;

pub const ECHO_REQUEST_SIZE: usize = 16;

// The bytes of a check, and where its parameters after ESP_INFO stand in it.
const CHECK_SIZE: usize = 48;

const SEQ_AT: usize = 16;

const ACK_AT: usize = 24;

const ECHO_REQUEST_AT: usize = 32;

// Writes the type and the length of a parameter.
#[tactic(auto, using(writer::proofs::Writes::written_beyond, crate::proofs::Parts::head_length, crate::proofs::Parts::head_written))]
pub fn put_head(buffer: &mut [u8], at: usize, kind: u16, len: u16)
    ensures { buffer.new ≡ written_at at (bytes_of 2 kind ++ bytes_of 2 len) buffer.old }
{
    if has_room(buffer, at, HEAD_SIZE) {
        put_u16(buffer, at, kind);
        put_u16(buffer, at + 2, len);
    }
}

// Writes a parameter that holds one number of four bytes: SEQ or ACK.
#[tactic(auto, using(writer::proofs::Writes::written_beyond, reply_form::proofs::Sizes::number_length, crate::proofs::Parts::number_written))]
pub fn put_number(buffer: &mut [u8], at: usize, kind: u16, value: u32)
    ensures { buffer.new ≡ written_at at (parameter_bytes kind (bytes_of 4 value)) buffer.old }
{
    if has_room(buffer, at, ACK_SIZE) {
        put_head(buffer, at, kind, SEQ_LENGTH as u16);
        put_u32(buffer, at + HEAD_SIZE, value);
    }
}

// Writes ESP_INFO: reserved bits 0, the KEYMAT Index, OLD SPI and NEW SPI.
#[tactic(auto, using(writer::proofs::Writes::written_beyond, reply_form::proofs::Sizes::esp_info_length_lem, crate::proofs::Parts::esp_info_written))]
pub fn put_esp_info(buffer: &mut [u8], at: usize, keymat: u16, old: u32, new: u32)
    ensures { buffer.new ≡ written_at at (esp_info_with keymat old new) buffer.old }
{
    if has_room(buffer, at, ESP_INFO_SIZE) {
        put_head(buffer, at, ESP_INFO as u16, ESP_INFO_LENGTH as u16);
        put_u16(buffer, at + HEAD_SIZE, 0);
        put_u16(buffer, at + 6, keymat);
        put_u32(buffer, at + 8, old);
        put_u32(buffer, at + 12, new);
    }
}

// Writes ECHO_REQUEST_SIGNED with its nonce, and its padding.
#[tactic(auto, using(writer::proofs::Writes::written_beyond, reply_form::proofs::Sizes::echo_request_length, crate::proofs::Parts::echo_request_written))]
pub fn put_echo_request(buffer: &mut [u8], at: usize, nonce: u64)
    ensures { buffer.new ≡ written_at at (echo_request_bytes nonce) buffer.old }
{
    if has_room(buffer, at, ECHO_REQUEST_SIZE) {
        put_head(buffer, at, ECHO_REQUEST_SIGNED as u16, NONCE_SIZE as u16);
        put_u64(buffer, at + HEAD_SIZE, nonce);
        put_u32(buffer, at + 12, 0);
    }
}

// Writes a check: its four parameters.
#[tactic(auto, using(writer::proofs::Writes::written_beyond, reply_form::proofs::Sizes::check_length, crate::proofs::Parts::check_written))]
fn put_check(buffer: &mut [u8], at: usize, inbound: u32, peer: u32, id: u32, nonce: u64)
    ensures { buffer.new ≡ written_at at (check_bytes inbound peer id nonce) buffer.old }
{
    if has_room(buffer, at, CHECK_SIZE) {
        put_esp_info(buffer, at, 0, inbound, inbound);
        put_number(buffer, at + SEQ_AT, SEQ as u16, id);
        put_number(buffer, at + ACK_AT, ACK as u16, peer);
        put_echo_request(buffer, at + ECHO_REQUEST_AT, nonce);
    }
}

// The Update ID of check k as it is written, by its low four bytes. The first check's is `next`.
fn id_at(next: u64, k: usize) -> u32
    ensures { result ≡ (next + k) % 2 ^ 32 }
{
    (next.wrapping_add(k as u64) & u64::from(u32::MAX)) as u32
}

// Writes so many checks from the buffer's start on. A nonce that is not offered counts 0.
#[tactic(auto, using(crate::proofs::Parts::checks_none, crate::proofs::Parts::checks_next, crate::proofs::Parts::checks_written, std::proofs::lemmas::Option::gets))]
fn put_checks(
    buffer: &mut [u8],
    inbound: u32,
    peer: u32,
    next: u64,
    nonces: &[u64; NONCE_COUNT],
    count: usize,
)
    requires { check_size * count ≤ length buffer.old }
    ensures { buffer.new ≡ overwritten (checks_bytes inbound peer next nonces.now 0 count) buffer.old }
{
    for k in 0..count {
        let nonce = nonces.get(k).copied().unwrap_or(0);
        put_check(buffer, CHECK_SIZE * k, inbound, peer, id_at(next, k), nonce);
    }
}

// Writes the ACK of the peer's Update ID, and says how many bytes that is; 0 where it does not fit.
#[tactic(auto, using(std::proofs::lemmas::Bool::Decides::nat_tests, writer::proofs::Writes::written_first, reply_form::proofs::Sizes::ack_length))]
pub fn write_ack(buffer: &mut [u8], peer: u32) -> usize
    ensures value { result ≡ length (fitted (length buffer.old) (ack_bytes peer)) }
    ensures buffer_after { buffer.new ≡ overwritten (fitted (length buffer.old) (ack_bytes peer)) buffer.old }
{
    if buffer.len() < ACK_SIZE {
        return 0;
    }
    put_number(buffer, 0, ACK as u16, peer);
    ACK_SIZE
}

// Writes the reply to a Move with so many new checks, and says how many bytes that is; 0 where it does not fit. The SPI, the two Update IDs and the nonces come from
// four places of one caller, so a struct of them would be made for this call alone.
#[tactic(auto, using(std::proofs::lemmas::Bool::Decides::nat_tests, reply_form::proofs::Sizes::move_length, crate::proofs::Moves::move_ack, crate::proofs::Moves::move_checks))]
pub fn write_move(
    buffer: &mut [u8],
    inbound: u32,
    peer: u32,
    next: u64,
    nonces: &[u64; NONCE_COUNT],
    checks: usize,
) -> usize
    ensures value { result ≡ length (fitted (length buffer.old) (move_bytes inbound peer next nonces.now checks)) }
    ensures buffer_after { buffer.new ≡ overwritten (fitted (length buffer.old) (move_bytes inbound peer next nonces.now checks)) buffer.old }
{
    if checks == 0 {
        return write_ack(buffer, peer);
    }
    if buffer.len() / CHECK_SIZE < checks {
        return 0;
    }
    put_checks(buffer, inbound, peer, next, nonces, checks);
    CHECK_SIZE * checks
}
