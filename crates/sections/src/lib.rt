// A record of three sections, each after its count of bytes: what a trace is a run of. Depends on octets.
#![tactic(auto)]

ghost use Rattle.std.specs.Prelude.{◌≡◌, cond, ltb, length};
ghost use Rattle.sections.specs.Records.{size_of, Part, section_step_at, record_at, next_of, record_step_at};

// The bytes of a section's count.
const COUNT_SIZE: usize = 2;

// A section's bytes: from `start` on, up to and not including `end`.
#[derive(Clone, Copy, PartialEq, Eq)]
pub struct Section {
    pub start: usize,
    pub end: usize,
}

#[derive(Clone, Copy, PartialEq, Eq)]
pub struct Record {
    pub numbers: Section,
    pub body: Section,
    pub nonces: Section,
}

// What stands at a place of a run of records: a whole record, one that the bytes end within, or the end. Three cases that are named: an Option of a Result
// would be no plainer.
#[derive(Clone, Copy, PartialEq, Eq)]
pub enum RecordStep {
    Whole(Record),
    Torn,
    End,
}

// How many bytes a section has.
pub fn size(section: Section) -> usize
    ensures { result ≡ size_of section }
{
    section.end.saturating_sub(section.start)
}

// The part of s in a section, as far as s has it. It is lent for as long as s is.
pub fn part<'s>(s: &'s [u8], section: Section) -> &'s [u8]
    ensures { Part s.entry section result }
{
    let end = section.end.min(s.len());
    let start = section.start.min(end);
    &s[start..end]
}

// The section whose count stands at `at`; none where the bytes end within it.
#[tactic(auto, unfolding(crate::specs::Records::section_step_at))]
fn section_at(s: &[u8], at: usize) -> Option<Section>
    ensures { result ≡ section_step_at s.now at }
{
    let start = at.checked_add(COUNT_SIZE)?;
    let end = start.checked_add(octets::u16_at(s, at))?;
    (end <= s.len()).then_some(Section { start, end })
}

// The record at `at`; none where the bytes end within it.
#[tactic(auto, unfolding(crate::specs::Records::section_step_at))]
fn whole_record_at(s: &[u8], at: usize) -> Option<Record>
    ensures { result ≡ cond (ltb (length s.now) (next_of (record_at s.now at))) None (Some (record_at s.now at)) }
{
    let numbers = section_at(s, at)?;
    let body = section_at(s, numbers.end)?;
    let nonces = section_at(s, body.end)?;
    Some(Record {
        numbers,
        body,
        nonces,
    })
}

// What stands at `at`, for every place of any bytes. The record after a whole one starts where its last section ends.
#[tactic(auto, unfolding(crate::specs::Records::record_step_at))]
pub fn record_at(s: &[u8], at: usize) -> RecordStep
    ensures { result ≡ record_step_at s.now at }
{
    if s.len() <= at {
        return RecordStep::End;
    }
    whole_record_at(s, at).map_or(RecordStep::Torn, RecordStep::Whole)
}
