// The frame of an UPDATE packet: its header, the walk over all its parameters, and refusal 3. Depends on parameter, octets, refusal.
#![tactic(auto)]

ghost use Rattle.std.specs.Prelude.{◌≡◌};
ghost use Rattle.frame.specs.Header.{header_holds};
ghost use Rattle.frame.specs.Survey.{again, counted, walk_of};
ghost use Rattle.frame.specs.Turn.{noted};

use parameter::Parameter;
use refusal::Refusal;

// The header: its size, and what stands in it.
pub const HEADER_SIZE: usize = 40;

const NO_NEXT_HEADER: u8 = 59;

const UPDATE: u8 = 16;

const HIP_VERSION: u8 = 2;

// How often a type occurs in a packet, 0, 1, or 2 for more, with the place and the length of the first one.
// `times` is a number and no enum: the kinds of message ask for none, for one, or for fewer than two.
#[derive(Clone, Copy, Default)]
pub struct Occurrence {
    pub times: usize,
    pub body: usize,
    pub len: usize,
}

// What the walk has seen: `unknown` says that a type was seen that refusal 4 refuses.
#[derive(Clone, Copy, Default)]
pub struct Survey {
    pub unknown: bool,
    pub esp: Occurrence,
    pub set: Occurrence,
    pub seq: Occurrence,
    pub ack: Occurrence,
    pub request: Occurrence,
    pub echo: Occurrence,
}

impl Occurrence {
    // One more parameter of the type.
    fn note(&mut self, p: Parameter)
        ensures { self.new ≡ again self.old p.body p.len }
    {
        if self.times == 0 {
            *self = Occurrence {
                times: 1,
                body: p.body,
                len: p.len,
            };
        } else {
            self.times = 2;
        }
    }
}

impl Survey {
    // One more parameter, of any type. Every type that is counted or refused is odd, so an even one is passed at once.
    #[tactic(auto, using(crate::proofs::Even::even_passed, std::proofs::lemmas::Bool::Decides::nat_tests), unfolding(parameter::specs::Types::refused_type))]
    fn note(&mut self, p: Parameter)
        ensures { self.new ≡ noted self.old p.kind p.body p.len }
    {
        if p.kind % 2 == 0 {
            return;
        }
        match p.kind {
            parameter::ESP_INFO => self.esp.note(p),
            parameter::LOCATOR_SET => self.set.note(p),
            parameter::SEQ => self.seq.note(p),
            parameter::ACK => self.ack.note(p),
            parameter::ECHO_REQUEST_SIGNED => self.request.note(p),
            parameter::ECHO_RESPONSE_SIGNED => self.echo.note(p),
            kind => {
                if parameter::refused_type(kind) {
                    self.unknown = true;
                }
            }
        }
    }
}

// The header's rule.
fn header_holds(s: &[u8]) -> bool
    ensures { result ≡ header_holds s.now }
{
    s.len() >= HEADER_SIZE
        && s[0] == NO_NEXT_HEADER
        && (usize::from(s[1]) + 1) * 8 == s.len()
        && s[2] == UPDATE
        && s[3] / 16 == HIP_VERSION
        && s[3] % 2 == 1
}

// One walk over all parameters: refusal 3, or what was seen.
pub fn walk(packet: &[u8]) -> Result<Survey, Refusal>
    ensures { result ≡ walk_of packet.now }
{
    if !header_holds(packet) {
        return Err(Refusal::Malformed);
    }
    let mut seen = Survey::default();
    let mut last = 0;
    let mut at = HEADER_SIZE;
    while let Some(p) = parameter::step_at(packet, at)? {
        if p.kind < last {
            return Err(Refusal::Malformed);
        }
        seen.note(p);
        last = p.kind;
        at = p.next;
    }
    Ok(seen)
}
