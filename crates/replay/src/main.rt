// Replays a trace: reads the file that its argument names, a record at a time, makes each record's call, and prints what the call answers and the
// association that it leaves. docs/DESIGN.md has the form of a trace and of the lines.
// Crates trace and entries decode a record, crate lines says what each line is, and crate text spells numbers. calls.rt makes the calls; answers.rt,
// state.rt and words.rt put the lines; this file reads. Depends on announce, message, payload, clock, association and the crates of their
// types, and on trace, entries, sections, lines and text.
#![tactic(auto)]

mod answers;
mod calls;
mod state;
mod words;

ghost use Rattle.std.specs.Prelude.{◌≤◌, length};

use association::Association;
use sections::RecordStep;
use std::fs::File;
use std::io;
use std::rt::{Env, Files};
use trace::ROOM_LIMIT;
use words::Text;

// The bytes of a trace that are held at a time. The longest record takes 196,611: three counts, and 65,535 bytes after each.
const TRACE_ROOM: usize = 262144;

// The longest path that can be opened, and one byte more.
const PATH_ROOM: usize = 4096;

// How far a trace is replayed: the number of the record that comes next, and the association before it, if one was started.
#[derive(Clone, Copy)]
struct Replay {
    index: u64,
    association: Option<Association>,
}

// Replays the records that s holds whole, and answers where the first starts that it does not.
#[tactic(auto, using(sections::proofs::Steps::whole_next))]
fn replay_held(
    rt: &impl Print,
    s: &[u8],
    replay: &mut Replay,
    reply: &mut [u8; ROOM_LIMIT],
    text: &mut Text,
) -> io::Result<usize> {
    let mut from = 0;
    while let RecordStep::Whole(found) = sections::record_at(s, from) {
        text.make_room(rt)?;
        replay.association = calls::replay_record(
            s,
            found,
            replay.index,
            replay.association,
            reply,
            text,
        );
        replay.index = replay.index.wrapping_add(1);
        from = found.nonces.end;
    }
    Ok(from)
}

// Moves the bytes from `from` on, up to `filled`, to the start, and answers how many there are.
fn shift(held: &mut [u8], from: usize, filled: usize) -> usize
    requires { filled ≤ length held.old }
    ensures { result ≤ filled }
{
    let from = from.min(filled);
    held.copy_within(from..filled, 0);
    filled - from
}

// Writes the text that is left, with a line that says so where the trace is torn.
fn finish(rt: &impl Print, text: &mut Text, is_torn: bool) -> io::Result<()> {
    if is_torn {
        text.put_word(b"torn\n");
    }
    text.flush(rt)
}

// Replays a file in the buffers lent. It is torn where it cannot be read, or ends within a record, whose first bytes are then still held. A proved loop has
// to end, and nothing says that a file does: the turns are counted up to a number that no run reaches.
fn replay_all(
    rt: &impl Print,
    file: &mut impl io::Read,
    held: &mut [u8],
    reply: &mut [u8; ROOM_LIMIT],
    text: &mut Text,
) -> io::Result<()> {
    let mut replay = Replay {
        index: 0,
        association: None,
    };
    let mut filled = 0;
    for _ in 0..u64::MAX {
        let from = replay_held(rt, &held[..filled], &mut replay, reply, text)?;
        filled = shift(held, from, filled);
        match file.read(&mut held[filled..]) {
            Ok(0) => return finish(rt, text, 0 < filled),
            Ok(count) => filled += count,
            Err(_) => return finish(rt, text, true),
        }
    }
    finish(rt, text, false)
}

// Replays a file.
fn replay_file(rt: &impl Print, file: &mut impl io::Read) -> io::Result<()> {
    let mut held = [0u8; TRACE_ROOM];
    let mut reply = [0u8; ROOM_LIMIT];
    let mut text = Text::new();
    replay_all(rt, file, &mut held, &mut reply, &mut text)
}

// The file that the argument names, where it can be opened.
fn open_trace<R: Env + Files>(rt: &R) -> Option<R::File> {
    let mut path = [0u8; PATH_ROOM];
    let length = rt.arg(1, &mut path).ok()?;
    let path = str::from_utf8(&path[..length]).ok()?;
    File::open(rt, path).ok()
}

fn main(rt: HostRuntime) -> io::Result<()> {
    let Some(mut file) = open_trace(&rt) else {
        return println!(rt; "torn");
    };
    replay_file(&rt, &mut file)
}
