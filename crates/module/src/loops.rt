// The loops of the instruments: refusal 14.
ghost use Rattle.std.specs.Prelude.{◌≡◌, ◌<◌};
ghost use Rattle.refusal.specs.Rules.{first_broken};
ghost use Rattle.module.specs.Loops.{frames_of_sample, loop_fits, loop_rules};

use crate::is_looped;
use blocks::stored::{
    instrument_flags, instrument_loop_length, instrument_loop_start, instrument_sample,
    sample_frames,
};
use blocks::{BlockKind, block_at, places};
use layout::{ChunkSpan, Layout};
use refusal::{Reason, Refusal, refuse};

// The number of frames of a sample; samples are counted from 1.
fn frames(m: &[u8], chunk: ChunkSpan, sample: u16) -> u32
    requires { 0 < sample }
    ensures { result ≡ frames_of_sample m.now chunk sample }
{
    sample_frames(m, block_at(m, BlockKind::Sample, chunk, sample - 1))
}

// Whether the loop of the instrument at a place, if it has one, is within its sample.
fn loop_fits(m: &[u8], chunk: ChunkSpan, at: usize) -> bool
    ensures { result ≡ loop_fits m.now chunk at }
{
    let length = instrument_loop_length(m, at);
    if !is_looped(instrument_flags(m, at), length) {
        return true;
    }
    let sample = instrument_sample(m, at);
    if sample < 1 {
        return false;
    }
    (instrument_loop_start(m, at) as usize) + (length as usize)
        <= (frames(m, chunk, sample) as usize)
}

// Checks the loops of the instruments.
pub fn check_loops(m: &[u8], l: Layout) -> Result<(), Refusal>
    ensures { result ≡ first_broken (loop_rules m.now l) }
{
    for at in places(m, BlockKind::Instrument, l.spans.inst, l.instruments) {
        if !loop_fits(m, l.spans.smpl, at) {
            return Err(refuse(Reason::Loop, at));
        }
    }
    Ok(())
}
