// Envelopes: their number, and one of them. Each query gives the module's own refusal, then 18.

#![tactic(auto)]

ghost use Rattle.std.specs.Prelude.{◌≡◌, leb};
ghost use Rattle.numbers.specs.Numbers.{each_from};
ghost use Rattle.envelopes.specs.Shown.{record_kind, no_count, count_answer, position_shown, value_of, value_shown, no_envelope, shown_envelope, envelope_answer};

use blocks::stored::{
    envelope_first_sustain, envelope_flags, envelope_instrument, envelope_loop_first,
    envelope_loop_last, envelope_position, envelope_second_sustain, envelope_sections,
    envelope_value,
};
use blocks::{RecordKind, chunk_of, envelope_count};
use numbers::signed;
use queries::find;
use refusal::{Outcome, Refusal};
use std::array;

// The two kinds of envelope.
#[derive(Clone, Copy)]
pub enum EnvelopeKind {
    Volume,
    Panning,
}

// The number of envelopes of a kind.
#[repr(C)]
#[derive(Clone, Copy)]
pub struct CountAnswer {
    pub outcome: Outcome,
    pub count: u16,
}

// An envelope. Panning values are −128 to 128 in both versions; points not in use are zeros.
#[repr(C)]
#[derive(Clone, Copy)]
pub struct EnvelopeAnswer {
    pub outcome: Outcome,
    pub instrument: u16,
    pub flags: u8,
    pub sections: u8,
    pub first_sustain: u8,
    pub loop_first: u8,
    pub loop_last: u8,
    pub second_sustain: u8,
    pub positions: [u16; 32],
    pub values: [i32; 32],
}

impl From<EnvelopeKind> for RecordKind {
    ghost from_gives = { λ kind given. given ≡ record_kind kind };

    fn from(kind: EnvelopeKind) -> RecordKind {
        match kind {
            EnvelopeKind::Volume => RecordKind::VolumeEnvelope,
            EnvelopeKind::Panning => RecordKind::PanningEnvelope,
        }
    }
}

fn no_count(r: Refusal) -> CountAnswer
    ensures { result ≡ no_count r }
{
    CountAnswer {
        outcome: Outcome::from(Err(r)),
        count: 0,
    }
}

// The number of envelopes of a kind.
pub fn count(m: &[u8], kind: EnvelopeKind) -> CountAnswer
    ensures { result ≡ count_answer m.now kind }
{
    match module::open(m) {
        Ok(l) => CountAnswer {
            outcome: Outcome::from(Ok(())),
            count: envelope_count(m, chunk_of(l, RecordKind::from(kind))),
        },
        Err(r) => no_count(r),
    }
}

// Whether a point is in use: the points in use are sections + 1.
fn in_use(sections: u8, point: u8) -> bool
    ensures { result ≡ leb point sections }
{
    point <= sections
}

// The shown position of a point of the envelope at a place.
pub fn position(m: &[u8], at: usize, sections: u8, point: u8) -> u16
    ensures { result ≡ position_shown m.now at sections point }
{
    if in_use(sections, point) {
        return envelope_position(m, at, point);
    }
    0
}

// The shown value of a stored value.
fn value_of(kind: EnvelopeKind, version: u8, v: u16) -> i32
    ensures { result ≡ value_of kind version v }
{
    match kind {
        EnvelopeKind::Volume => v as i32,
        EnvelopeKind::Panning => {
            if version == 2 {
                return 4 * (v as i32) - 128;
            }
            signed(v) as i32
        }
    }
}

// The shown value of a point of the envelope at a place.
pub fn value(m: &[u8], kind: EnvelopeKind, version: u8, at: usize, sections: u8, point: u8) -> i32
    ensures { result ≡ value_shown m.now kind version at sections point }
{
    if in_use(sections, point) {
        return value_of(kind, version, envelope_value(m, at, point));
    }
    0
}

// The shown positions of all points.
fn positions(m: &[u8], at: usize, sections: u8) -> [u16; 32]
    ensures { result ≡ each_from (position_shown m.now at sections) 0 32 }
{
    array::from_fn(|point| position(m, at, sections, point as u8))
}

// The shown values of all points.
fn values(m: &[u8], kind: EnvelopeKind, version: u8, at: usize, sections: u8) -> [i32; 32]
    ensures { result ≡ each_from (value_shown m.now kind version at sections) 0 32 }
{
    array::from_fn(|point| value(m, kind, version, at, sections, point as u8))
}

fn no_envelope(r: Refusal) -> EnvelopeAnswer
    ensures { result ≡ no_envelope r }
{
    EnvelopeAnswer {
        outcome: Outcome::from(Err(r)),
        instrument: 0,
        flags: 0,
        sections: 0,
        first_sustain: 0,
        loop_first: 0,
        loop_last: 0,
        second_sustain: 0,
        positions: [0; 32],
        values: [0; 32],
    }
}

// The envelope whose block is at a place.
fn envelope_at(m: &[u8], kind: EnvelopeKind, version: u8, at: usize) -> EnvelopeAnswer
    ensures { result ≡ shown_envelope m.now kind version at }
{
    let sections = envelope_sections(m, at);
    EnvelopeAnswer {
        outcome: Outcome::from(Ok(())),
        instrument: envelope_instrument(m, at),
        flags: envelope_flags(m, at),
        sections,
        first_sustain: envelope_first_sustain(m, at),
        loop_first: envelope_loop_first(m, at),
        loop_last: envelope_loop_last(m, at),
        second_sustain: envelope_second_sustain(m, at),
        positions: positions(m, at, sections),
        values: values(m, kind, version, at, sections),
    }
}

// An envelope, counted from 0 in the order of its chunk.
pub fn envelope(m: &[u8], kind: EnvelopeKind, envelope: usize) -> EnvelopeAnswer
    ensures { result ≡ envelope_answer m.now kind envelope }
{
    match find(m, RecordKind::from(kind), envelope) {
        Ok(b) => envelope_at(m, kind, b.version, b.at),
        Err(r) => no_envelope(r),
    }
}
