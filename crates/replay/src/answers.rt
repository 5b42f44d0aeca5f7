// The line of a call and its answer. Each part is put into the text that is held, and not printed by a Display: its contract says which text of crate lines it is.
#![tactic(auto, unfolding(lines::specs::Laid::laid_out, lines::specs::Laid::laid_end, lines::specs::Answers::name_text, lines::specs::Answers::call_text, lines::specs::Answers::refusal_text, lines::specs::Answers::outcome_text, lines::specs::Answers::send_text, lines::specs::Answers::counts_text, lines::specs::Answers::bytes_text, lines::specs::Answers::any_text, lines::specs::Answers::reply_text, lines::specs::Answers::message_text, lines::specs::Answers::tick_text, lines::specs::Answers::announcement_text))]

ghost use Rattle.std.specs.Prelude.{◌∷◌};
ghost use Rattle.lines.specs.Answers.{name_text, call_text, refusal_text, outcome_text, send_text, counts_text, bytes_text, any_text, reply_text, message_text, tick_text, announcement_text};
ghost use Rattle.replay.specs.Put.{Put};

use crate::words::Text;
use announcement::Announcement;
use clock::TickAnswer;
use refusal::Refusal;
use resend::RESEND_SIZE;
use trace::Call;
use update::{MessageAnswer, Received};

fn put_name(text: &mut Text, call: Option<Call>)
    ensures { Put (name_text call) text.old text.new }
{
    match call {
        Some(Call::Start(_)) => text.put_word(b" start"),
        Some(Call::Message(_)) => text.put_word(b" message"),
        Some(Call::Arrival(_)) => text.put_word(b" arrival"),
        Some(Call::Send(_)) => text.put_word(b" send"),
        Some(Call::Tick(_)) => text.put_word(b" tick"),
        Some(Call::Announce(_)) => text.put_word(b" announcement"),
        None => text.put_word(b" malformed"),
    }
}

// The beginning of a record's line: its number, and which call it is.
pub(crate) fn put_call(text: &mut Text, index: u64, call: Option<Call>)
    ensures { Put (call_text index call) text.old text.new }
{
    text.put_field(b"", index);
    put_name(text, call);
}

fn put_refusal(text: &mut Text, why: Refusal)
    ensures { Put (refusal_text why) text.old text.new }
{
    text.put_field(b" refused ", u64::from(refusal::number(why)));
    text.put_word(b"\n");
}

// What a start or an arrival answered.
pub(crate) fn put_outcome(text: &mut Text, outcome: Result<(), Refusal>)
    ensures { Put (outcome_text outcome) text.old text.new }
{
    match outcome {
        Ok(()) => text.put_word(b" accepted\n"),
        Err(why) => put_refusal(text, why),
    }
}

// What a send answered.
pub(crate) fn put_send(text: &mut Text, outcome: Result<usize, Refusal>)
    ensures { Put (send_text outcome) text.old text.new }
{
    match outcome {
        Ok(slot) => {
            text.put_field(b" granted slot ", slot as u64);
            text.put_word(b"\n");
        }
        Err(why) => put_refusal(text, why),
    }
}

// The first so many bytes of the buffer, which were written.
fn put_written(text: &mut Text, count: usize, buffer: &[u8])
    ensures { Put (bytes_text count buffer.now) text.old text.new }
{
    text.put_word(b" ");
    text.put_bytes(&buffer[..count.min(buffer.len())]);
    text.put_word(b"\n");
}

// The first so many bytes of the buffer, where there are any.
fn put_any(text: &mut Text, count: usize, buffer: &[u8])
    ensures { Put (any_text count buffer.now) text.old text.new }
{
    if count == 0 {
        text.put_word(b"\n");
    } else {
        put_written(text, count, buffer);
    }
}

// The numbers that an answered message tells.
fn put_counts(text: &mut Text, answer: &MessageAnswer)
    ensures { Put (counts_text answer.now) text.old text.new }
{
    text.put_field(b" reply ", answer.written as u64);
    text.put_field(b" checks ", answer.checks as u64);
    text.put_field(b" keymat ", u64::from(answer.keymat));
}

// How an answered message ended, the numbers that it tells, and the bytes of its reply.
fn put_reply(text: &mut Text, word: &[u8], answer: &MessageAnswer, reply: &[u8])
    ensures { Put (word.now ∷ reply_text answer.now reply.now) text.old text.new }
{
    text.put_word(word);
    put_counts(text, answer);
    put_any(text, answer.written, reply);
}

// What a message answered, with the buffer that its reply is in.
pub(crate) fn put_message(text: &mut Text, answer: &MessageAnswer, reply: &[u8])
    ensures { Put (message_text answer.now reply.now) text.old text.new }
{
    match answer.outcome {
        Ok(Received::Moved | Received::Replied | Received::Responded) => {
            put_reply(text, b" accepted", answer, reply);
        }
        Ok(Received::Repeated) => put_reply(text, b" repeated", answer, reply),
        Err(why) => put_refusal(text, why),
    }
}

// What a tick answered, with the buffer that its resends are in.
pub(crate) fn put_tick(text: &mut Text, answer: &TickAnswer, buffer: &[u8])
    ensures { Put (tick_text answer.now buffer.now) text.old text.new }
{
    match answer.outcome {
        Ok(()) => {
            let count = answer.written / RESEND_SIZE;
            text.put_field(b" accepted resent ", count as u64);
            put_any(text, answer.written, buffer);
        }
        Err(why) => put_refusal(text, why),
    }
}

// What an announcement answered, with the buffer that it is in.
pub(crate) fn put_announcement(text: &mut Text, answer: &Announcement, buffer: &[u8])
    ensures { Put (announcement_text answer.now buffer.now) text.old text.new }
{
    match answer.outcome {
        Ok(()) => {
            text.put_field(b" accepted bytes ", answer.written as u64);
            put_written(text, answer.written, buffer);
        }
        Err(why) => put_refusal(text, why),
    }
}
