// LOCATOR_SET with our own list, as an announcement has it: its size, and its bytes written into the buffer that the caller lends. Depends on own_list,
// announcement, reply, writer, locator_set, locator and parameter.
#![tactic(auto)]

ghost use Rattle.std.specs.Prelude.{ℕ, ◌+◌, ◌%◌, ◌≤◌, ◌≡◌, length};
ghost use Rattle.locator.specs.Locators.{unit};
ghost use Rattle.writer.specs.Writes.{written_at};
ghost use Rattle.announcement.specs.Written.{units_of, spi_bytes, address_bytes, entry_bytes, set_body, locator_set_bytes};
ghost use Rattle.announcement.specs.Entries.{entry_size, set_size};
ghost use Rattle.announce_writer.specs.Parts.{entry_head, padding};

use address::Address;
use announcement::OwnLocator;
use locator::{HEAD_SIZE as ENTRY_HEAD_SIZE, SPI_TYPE, UNIT};
use own_list::OwnList;
use parameter::LOCATOR_SET;
use reply::HEAD_SIZE;
use writer::{has_room, put_bytes, put_u32, put_u64};

// The bytes of an entry's address, with which it ends.
const ADDRESS_SIZE: usize = 16;

// The length of an entry: the units of its SPI, where there is one, and its address.
fn units_of(kind: u8) -> u8
    ensures { result ≡ units_of kind }
{
    if kind == SPI_TYPE { 5 } else { 4 }
}

// Writes what stands before an entry's SPI and address: traffic type, locator type, length, P alone in its byte, and lifetime.
#[tactic(auto, using(crate::proofs::Parts::entry_head_written))]
fn put_entry_head(buffer: &mut [u8], at: usize, e: &OwnLocator)
    requires { at + 8 ≤ length buffer.old }
    ensures { buffer.new ≡ written_at at (entry_head e.now) buffer.old }
{
    let units = units_of(e.kind);
    put_bytes(
        buffer,
        at,
        &[e.traffic, e.kind, units, u8::from(e.preferred)],
    );
    put_u32(buffer, at + 4, e.lifetime);
}

// Writes the SPI of an entry of type 1, and nothing for another.
#[tactic(auto, using(writer::proofs::Writes::written_none))]
fn put_spi(buffer: &mut [u8], at: usize, kind: u8, spi: u32)
    ensures { buffer.new ≡ written_at at (spi_bytes kind spi) buffer.old }
{
    if kind == SPI_TYPE {
        put_u32(buffer, at, spi);
    }
}

// Writes the 16 bytes of an address.
#[tactic(auto, using(crate::proofs::Parts::address_written))]
fn put_address(buffer: &mut [u8], at: usize, address: Address)
    requires { at + 16 ≤ length buffer.old }
    ensures { buffer.new ≡ written_at at (address_bytes address) buffer.old }
{
    put_u64(buffer, at, address.high);
    put_u64(buffer, at + 8, address.low);
}

// Writes an entry, and says where the next one starts.
#[tactic(auto, using(announcement::proofs::Sizes::units_least, crate::proofs::Parts::entry_written))]
fn put_entry(buffer: &mut [u8], at: usize, spi: u32, e: &OwnLocator) -> usize
    requires { at + entry_size e.now ≤ length buffer.old }
    ensures value { result ≡ at + entry_size e.now }
    ensures buffer_after { buffer.new ≡ written_at at (entry_bytes spi e.now) buffer.old }
{
    let next = at + ENTRY_HEAD_SIZE + UNIT * usize::from(units_of(e.kind));
    put_entry_head(buffer, at, e);
    put_spi(buffer, at + ENTRY_HEAD_SIZE, e.kind, spi);
    put_address(buffer, next - ADDRESS_SIZE, e.address);
    next
}

// Writes entries one after another, and says where they end.
fn put_entries(buffer: &mut [u8], at: usize, spi: u32, list: &[OwnLocator]) -> usize
    requires { at + set_size list.now ≤ length buffer.old }
    ensures value { result ≡ at + set_size list.now }
    ensures buffer_after { buffer.new ≡ written_at at (set_body spi list.now) buffer.old }
{
    let mut next = at;
    for e in list {
        next = put_entry(buffer, next, spi, e);
    }
    next
}

// Writes the padding after a set of `size` bytes, which are whole units: four bytes or none.
#[tactic(auto, using(writer::proofs::Writes::written_none, crate::proofs::Parts::four_padding, crate::proofs::Parts::no_padding))]
fn put_padding(buffer: &mut [u8], at: usize, size: usize)
    requires { size % unit ≡ 0 }
    ensures { buffer.new ≡ written_at at (padding size) buffer.old }
{
    if size % 8 == 0 {
        put_u32(buffer, at, 0);
    }
}

// The bytes of LOCATOR_SET with our list, whatever the SPI.
#[tactic(auto, using(crate::proofs::Parts::set_taken))]
pub fn locator_set_size(list: &OwnList) -> usize
    ensures few { result ≤ 240 }
    ensures value { (spi : ℕ) → result ≡ length (locator_set_bytes spi list.now.entries.now) }
{
    parameter::taken_by(own_list::set_size(list) as u16)
}

// Writes LOCATOR_SET with our list, and `spi` in its entries of type 1; nothing where the buffer ends before it does.
pub fn put_locator_set(buffer: &mut [u8], at: usize, spi: u32, list: &OwnList)
    ensures { buffer.new ≡ written_at at (locator_set_bytes spi list.now.entries.now) buffer.old }
{
    let size = own_list::set_size(list);
    if has_room(buffer, at, parameter::taken_by(size as u16)) {
        reply::put_head(buffer, at, LOCATOR_SET as u16, size as u16);
        let end = put_entries(buffer, at + HEAD_SIZE, spi, list.entries);
        put_padding(buffer, end, size);
    }
}
