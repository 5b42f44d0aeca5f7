// The call that announces our own addresses: refusals 0 and 17 to 21 in their order, and then the ESP_INFO, LOCATOR_SET and SEQ of a Move, written into the
// buffer that the caller lends. Depends on announce_writer, own_list, announcement, reply, association, locator_set, parameter and refusal.
#![tactic(auto)]

ghost use Rattle.std.specs.Prelude.{◌≡◌, ℕ, ◌≤◌, ◌<◌, length};
ghost use Rattle.reply_form.specs.Replies.{overwritten};
ghost use Rattle.association.specs.declared.Association as associations;
ghost use Rattle.association.specs.Form.{id_limit};
ghost use Rattle.announcement.specs.Written.{announcement_bytes};
ghost use Rattle.announcement.specs.Announcements as rules;
ghost use Rattle.announce.specs.Ends.{judged};

use announcement::{Announcement, OwnLocator};
use association::{Association, ID_LIMIT};
use locator_set::SET_LIMIT;
use own_list::OwnList;
use parameter::SEQ;
use refusal::Refusal;
use reply::{ACK_SIZE as SEQ_SIZE, ESP_INFO_SIZE};

// The bytes of the announcement of our list.
#[tactic(auto, using(crate::proofs::Sent::announcement_taken))]
fn announcement_size(list: &OwnList) -> usize
    ensures { (a : associations.Association) → (inbound keymat : ℕ) → result ≡ length (announcement_bytes a list.now.entries.now inbound keymat) }
{
    ESP_INFO_SIZE + announce_writer::locator_set_size(list) + SEQ_SIZE
}

// What a call is refused for, and else the bytes that the announcement takes.
fn judge(
    a: &Association,
    list: &OwnList,
    count: usize,
    inbound: u32,
    room: usize,
) -> Result<usize, Refusal>
    ensures { (keymat : ℕ) → result ≡ judged a.now list.now.entries.now count inbound keymat room }
{
    // Refusal 0: no call makes such an association.
    if association::is_bad_association(a) {
        return Err(Refusal::BadAssociation);
    }
    // Refusal 17: the list has no entry, or more than a set may have.
    if own_list::is_bad_count(count) {
        return Err(Refusal::BadListSize);
    }
    // Refusal 18: the peer would refuse the set.
    if own_list::is_bad_list(list) {
        return Err(Refusal::BadList);
    }
    // Refusal 19: no association may use the new SPI.
    if association::is_unusable_spi(inbound) {
        return Err(Refusal::BadInboundSpi);
    }
    // Refusal 20: own Update IDs are used up.
    if a.next == ID_LIMIT {
        return Err(Refusal::NoUpdateIdLeft);
    }
    // Refusal 21: the buffer may not hold the announcement.
    let size = announcement_size(list);
    if room < size {
        return Err(Refusal::ShortBuffer);
    }
    Ok(size)
}

// The association after an accepted call: the new SPI is the inbound one, and an own Update ID is used up.
#[tactic(auto, unfolding(announcement::specs::Announcements::after_announcement))]
fn after_announcement(a: Association, inbound: u32) -> Association
    requires { a.next < id_limit }
    ensures { result ≡ rules.after_announcement a inbound }
{
    Association {
        inbound,
        next: a.next + 1,
        ..a
    }
}

// Writes the announcement, which takes `size` bytes.
#[tactic(auto, using(announcement::proofs::Sizes::announcement_length, crate::proofs::Sent::announcement_written))]
fn write_announcement(
    buffer: &mut [u8],
    a: &Association,
    list: &OwnList,
    inbound: u32,
    keymat: u16,
    size: usize,
)
    requires next_lt_id_limit { a.now.next < id_limit }
    requires size_value { (size ≡ length (announcement_bytes a.now list.now.entries.now inbound keymat)) × (size ≤ length buffer.old) }
    ensures { buffer.new ≡ overwritten (announcement_bytes a.now list.now.entries.now inbound keymat) buffer.old }
{
    reply::put_esp_info(buffer, 0, keymat, a.inbound, inbound);
    announce_writer::put_locator_set(buffer, ESP_INFO_SIZE, inbound, list);
    reply::put_number(buffer, size - SEQ_SIZE, SEQ as u16, a.next as u32);
}

// Announces the first `count` entries of the list: the association, the list, the new inbound SPI, the KEYMAT Index, and the buffer for the announcement.
// A refusal leaves the association and the buffer as they were lent. The count stands beside the array, since a host may hand in one that is past it: refusal 17.
#[tactic(auto, unfolding(announcement::specs::Announcements::handled))]
pub fn announce(
    a: Association,
    list: [OwnLocator; SET_LIMIT],
    count: usize,
    inbound: u32,
    keymat: u16,
    buffer: &mut [u8],
) -> Announcement
    ensures value { result ≡ rules.announcement_of a list count inbound keymat buffer.old }
    ensures buffer_after { buffer.new ≡ rules.buffer_after a list count inbound keymat buffer.old }
{
    let own = own_list::first_entries(&list, count);
    match judge(&a, &own, count, inbound, buffer.len()) {
        Ok(written) => {
            write_announcement(buffer, &a, &own, inbound, keymat, written);
            Announcement {
                outcome: Ok(()),
                written,
                association: after_announcement(a, inbound),
            }
        }
        Err(why) => Announcement {
            outcome: Err(why),
            written: 0,
            association: a,
        },
    }
}
