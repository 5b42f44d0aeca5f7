// A reader over a packet's parameters: it keeps the packet that it was given and its place. Depends on frame, parameter, refusal.
#![tactic(auto)]

ghost use Rattle.std.specs.Prelude.{◌≡◌};
ghost use Rattle.reader.specs.Readers.{start, advanced_of, fresh, stepped_of};

use parameter::Parameter;
use refusal::Refusal;

// Where a reader stands: the place of the next parameter, and the type of the one before it, 0 before the first.
#[derive(Clone, Copy)]
pub struct Cursor {
    pub at: usize,
    pub last: usize,
}

// The packet, under its own lifetime, and the place in it.
#[derive(Drop)]
pub struct ParameterReader<'p> {
    pub packet: &'p [u8],
    pub cursor: Cursor,
}

// The cursor of a new reader: at the header's end.
pub fn start_cursor() -> Cursor
    ensures { result ≡ start }
{
    Cursor {
        at: frame::HEADER_SIZE,
        last: 0,
    }
}

// One step at a cursor: the step of the walk, and the test of a falling type. The cursor moves past a parameter, and else stays.
#[tactic(auto, using(std::proofs::lemmas::Bool::Decides::nat_tests), unfolding(crate::specs::Readers::advanced_of))]
pub fn next_parameter(packet: &[u8], cursor: &mut Cursor) -> Result<Option<Parameter>, Refusal>
    ensures step { result ≡ (advanced_of packet.now cursor.old).step }
    ensures place { cursor.new ≡ (advanced_of packet.now cursor.old).cursor }
{
    let Some(p) = parameter::step_at(packet, cursor.at)? else {
        return Ok(None);
    };
    if p.kind < cursor.last {
        return Err(Refusal::Malformed);
    }
    *cursor = Cursor {
        at: p.next,
        last: p.kind,
    };
    Ok(Some(p))
}

impl<'p> ParameterReader<'p> {
    // A reader of the packet, before its first parameter. The header's rule is not judged here: `frame::walk` does.
    pub fn new(packet: &'p [u8]) -> ParameterReader<'p>
        ensures { result ≡ fresh packet.entry }
    {
        ParameterReader {
            packet,
            cursor: start_cursor(),
        }
    }

    // What stands at the reader's place, with the reader moved past it. A reader at the end, or at what is refused, stays there.
    pub fn step(&mut self) -> Result<Option<Parameter>, Refusal>
        ensures step { result ≡ (stepped_of self.old).step }
        ensures reader { self.new ≡ (stepped_of self.old).reader }
    {
        next_parameter(self.packet, &mut self.cursor)
    }

    // The packet that the reader was given.
    pub fn into_packet(self) -> &'p [u8]
        ensures { result ≡ self.entry.packet }
    {
        self.packet
    }
}
