// The calls of a trace: each is made, and its line and the state after it are put into the text.
use crate::words::Text;
use crate::{answers, state};
use association::Association;
use sections::Record;
use trace::{AnnounceCall, Call, MessageCall, ROOM_LIMIT, StartCall, TickCall};

// A start begins a new association; a refused one leaves the one before.
fn make_start(
    call: StartCall,
    before: Option<Association>,
    text: &mut Text,
) -> Option<Association> {
    let answer = association::start(
        call.time,
        call.outbound,
        call.inbound,
        call.address,
        call.lifetime,
    );
    answers::put_outcome(text, answer.outcome);
    if answer.outcome.is_ok() {
        Some(answer.association)
    } else {
        before
    }
}

// A message, with the first so many bytes of the reply buffer.
fn make_message(
    s: &[u8],
    found: Record,
    call: MessageCall,
    a: Association,
    reply: &mut [u8; ROOM_LIMIT],
    text: &mut Text,
) -> Association {
    let packet = sections::part(s, found.body);
    let nonces = trace::nonces_in(s, found.nonces);
    let room = usize::from(call.room);
    let answer = message::receive(a, packet, call.authentic, nonces, &mut reply[..room]);
    answers::put_message(text, &answer, reply);
    answer.association
}

// An announcement, with the first so many bytes of the buffer.
fn make_announcement(
    s: &[u8],
    found: Record,
    call: AnnounceCall,
    a: Association,
    buffer: &mut [u8; ROOM_LIMIT],
    text: &mut Text,
) -> Association {
    let list = entries::list_in(s, found);
    let room = usize::from(call.room);
    let answer = announce::announce(
        a,
        list,
        call.count,
        call.inbound,
        call.keymat,
        &mut buffer[..room],
    );
    answers::put_announcement(text, &answer, buffer);
    answer.association
}

// A tick, with the first so many bytes of the buffer.
fn make_tick(
    call: TickCall,
    a: Association,
    buffer: &mut [u8; ROOM_LIMIT],
    text: &mut Text,
) -> Association {
    let room = usize::from(call.room);
    let answer = clock::tick(a, call.time, &mut buffer[..room]);
    answers::put_tick(text, &answer, buffer);
    answer.association
}

fn make_send(size: u64, a: Association, text: &mut Text) -> Association {
    let answer = payload::send(a, size);
    answers::put_send(text, answer.outcome);
    answer.association
}

fn make_arrival(size: u64, a: Association, text: &mut Text) -> Association {
    let answer = payload::arrival(a, size);
    answers::put_outcome(text, answer.outcome);
    answer.association
}

// Makes a call, puts the rest of its line, and answers the association after it: none until one is started.
fn make_call(
    s: &[u8],
    found: Record,
    call: Option<Call>,
    before: Option<Association>,
    reply: &mut [u8; ROOM_LIMIT],
    text: &mut Text,
) -> Option<Association> {
    match (call, before) {
        (None, _) => {
            text.put_word(b"\n");
            before
        }
        (Some(Call::Start(start)), _) => make_start(start, before, text),
        (Some(_), None) => {
            text.put_word(b" no association\n");
            None
        }
        (Some(Call::Message(message)), Some(a)) => {
            Some(make_message(s, found, message, a, reply, text))
        }
        (Some(Call::Arrival(size)), Some(a)) => Some(make_arrival(size, a, text)),
        (Some(Call::Send(size)), Some(a)) => Some(make_send(size, a, text)),
        (Some(Call::Tick(tick)), Some(a)) => Some(make_tick(tick, a, reply, text)),
        (Some(Call::Announce(announcement)), Some(a)) => {
            Some(make_announcement(s, found, announcement, a, reply, text))
        }
    }
}

// Replays record `index` of a trace: its line, and the state after it.
pub(crate) fn replay_record(
    s: &[u8],
    found: Record,
    index: u64,
    before: Option<Association>,
    reply: &mut [u8; ROOM_LIMIT],
    text: &mut Text,
) -> Option<Association> {
    let call = trace::call_in(s, found);
    answers::put_call(text, index, call);
    let after = make_call(s, found, call, before, reply, text);
    if let Some(a) = after {
        state::put_state(text, &a);
    }
    after
}
