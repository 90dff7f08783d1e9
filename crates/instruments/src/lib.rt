// Instruments, all fields as stored. The query gives the module's own refusal, then 18.

#![tactic(auto)]

ghost use Rattle.std.specs.Prelude.{◌≡◌};
ghost use Rattle.instruments.specs.Shown.{no_instrument, shown_instrument, instrument_answer};

use blocks::RecordKind;
use blocks::stored::{
    instrument_flags, instrument_loop_length, instrument_loop_start, instrument_panning,
    instrument_rate, instrument_sample, instrument_volume,
};
use numbers::signed;
use queries::{find, name};
use refusal::{Outcome, Refusal};

// An instrument.
#[repr(C)]
#[derive(Clone, Copy)]
pub struct InstrumentAnswer {
    pub outcome: Outcome,
    pub name: [u8; 30],
    pub sample: u16,
    pub volume: u16,
    pub panning: i16,
    pub flags: u16,
    pub rate: u32,
    pub loop_start: u32,
    pub loop_length: u32,
}

fn no_instrument(r: Refusal) -> InstrumentAnswer
    ensures { result ≡ no_instrument r }
{
    InstrumentAnswer {
        outcome: Outcome::from(Err(r)),
        name: [0; 30],
        sample: 0,
        volume: 0,
        panning: 0,
        flags: 0,
        rate: 0,
        loop_start: 0,
        loop_length: 0,
    }
}

// The instrument whose block is at a place.
fn instrument_at(m: &[u8], at: usize) -> InstrumentAnswer
    ensures { result ≡ shown_instrument m.now at }
{
    InstrumentAnswer {
        outcome: Outcome::from(Ok(())),
        name: name(m, at),
        sample: instrument_sample(m, at),
        volume: instrument_volume(m, at),
        panning: signed(instrument_panning(m, at)),
        flags: instrument_flags(m, at),
        rate: instrument_rate(m, at),
        loop_start: instrument_loop_start(m, at),
        loop_length: instrument_loop_length(m, at),
    }
}

// An instrument, counted from 1.
pub fn instrument(m: &[u8], instrument: usize) -> InstrumentAnswer
    ensures { result ≡ instrument_answer m.now instrument }
{
    match find(m, RecordKind::Instrument, instrument) {
        Ok(b) => instrument_at(m, b.at),
        Err(r) => no_instrument(r),
    }
}
