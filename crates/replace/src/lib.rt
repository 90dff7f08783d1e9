// Replacing a sample of a module by 16-bit frames. The sample's block and the length of SMPL are rewritten, and the loops of instruments that
// no longer fit the sample are cleared; all other bytes are unchanged. The module is read in place, and no memory is needed.

#![tactic(auto)]

ghost use Rattle.std.specs.Prelude.{◌≡◌, [], ◌∷◌, ◌++◌, map, true, ◌+◌, ◌-◌, ◌≤◌, length, drop};
ghost use Rattle.packed_rows.specs.Entries.{count};
ghost use Rattle.blocks.specs.Sizes.{block_at};
ghost use Rattle.blocks.specs.declared.BlockKind.TheVariants.{Sample as SampleBlock};
ghost use Rattle.blocks.specs.declared.RecordKind.TheVariants.{Sample};
ghost use Rattle.module.specs.Verdicts.{opened};
ghost use Rattle.queries.specs.Finding.{there};
ghost use Rattle.replace.specs.Replaced.{new_frames, new_block, loop_cleared, rewritten_instrument, replaced_module, cleared_count};
ghost use Rattle.replace.specs.Replaced.{refused_replace, replace_if, replace_answer, replace_output_if, replace_output};
ghost use Rattle.replace.specs.Steps.{front_with, block_replaced, SampleIn, instrument_places, InstrumentsIn, instruments_written, place_afterwards};

use blocks::stored::{
    INSTRUMENT_FLAGS, INSTRUMENT_LOOP_LENGTH, INSTRUMENT_LOOP_START, SAMPLE_BYTES, SAMPLE_FLAGS,
    SAMPLE_FRAMES, instrument_flags, instrument_loop_length, instrument_loop_start,
    instrument_sample,
};
use blocks::{BlockKind, RecordKind, block_at, size};
use layout::{ChunkSpan, Layout};
use module::is_looped;
use numbers::{part, put16, put32};
use queries::find_in;
use refusal::{Outcome, Reason, Refusal, refuse};

// The length of the module that was written, and the number of instruments whose loop was cleared.
#[repr(C)]
#[derive(Clone, Copy)]
pub struct ReplaceAnswer {
    pub outcome: Outcome,
    pub length: usize,
    pub cleared: usize,
}

// The answer of a call that refuses.
fn refused(r: Refusal) -> ReplaceAnswer
    ensures { result ≡ refused_replace r }
{
    ReplaceAnswer {
        outcome: Outcome::from(Err(r)),
        length: 0,
        cleared: 0,
    }
}

// Whether the loop of the instrument at a place is cleared: it is looped, on that sample, and its loop ends after that many frames.
fn loop_cleared(m: &[u8], sample: usize, frames: usize, at: usize) -> bool
    ensures { result ≡ loop_cleared m.now sample frames at }
{
    let length = instrument_loop_length(m, at);
    let end = (instrument_loop_start(m, at) as usize) + (length as usize);
    let same = (instrument_sample(m, at) as usize) == sample;
    is_looped(instrument_flags(m, at), length) & (same & (frames < end))
}

// Writes an instrument's rewritten block to the front of an output that has room for it. Returns 1 if its loop is cleared, else 0.
fn write_instrument(m: &[u8], sample: usize, frames: usize, at: usize, out: &mut [u8]) -> usize
    requires { (at + 50 ≤ length m.now) × (50 ≤ length out.old) }
    ensures { (result ≡ count (loop_cleared m.now sample frames at ∷ []))
        × (out.new ≡ rewritten_instrument m.now sample frames at ++ drop 50 out.old) }
{
    byte_copy::copy(part(m, at, 50), out);
    if !loop_cleared(m, sample, frames, at) {
        return 0;
    }
    put32(0, INSTRUMENT_LOOP_START, out);
    put32(0, INSTRUMENT_LOOP_LENGTH, out);
    put16(0, INSTRUMENT_FLAGS, out);
    1
}

// Writes INST's new data to the front of an output that has room for them, and returns the number of loops that are cleared.
fn write_instruments(
    m: &[u8],
    inst: ChunkSpan,
    instruments: u16,
    sample: usize,
    frames: usize,
    out: &mut [u8],
) -> usize
    requires { InstrumentsIn m.now inst instruments
        × (length (instruments_written m.now inst instruments sample frames) ≤ length out.old) }
    ensures { (result ≡ count (map (loop_cleared m.now sample frames) (instrument_places m.now inst instruments)))
        × (out.new ≡ instruments_written m.now inst instruments sample frames
        ++ drop (length (instruments_written m.now inst instruments sample frames)) out.old) }
{
    let mut at = block_at(m, BlockKind::Instrument, inst, 0);
    let mut to: usize = 0;
    let mut cleared: usize = 0;
    for _ in 0..instruments {
        cleared = cleared + write_instrument(m, sample, frames, at, &mut out[to..]);
        to = to + 50;
        at = at + 50;
    }
    cleared
}

// Writes the new block of the sample to the front of an output that has room for it, and returns its length.
fn write_block(new: &[u8], out: &mut [u8]) -> usize
    requires { (length new.now ≤ 16777216) × (length (new_block new.now) ≤ length out.old) }
    ensures { (result ≡ length (new_block new.now)) × (out.new ≡ new_block new.now ++ drop result out.old) }
{
    put32(2, SAMPLE_FLAGS, out);
    put32((new.len() / 2) as u32, SAMPLE_FRAMES, out);
    byte_copy::copy(new, &mut out[SAMPLE_BYTES..]);
    SAMPLE_BYTES + new.len()
}

// Writes the module up to the sample's block to the front of an output that has room for it, with another length of SMPL's data.
fn write_front(m: &[u8], smpl: ChunkSpan, at: usize, content: u32, out: &mut [u8])
    requires { SampleIn m.now smpl at × (at ≤ length out.old) }
    ensures { out.new ≡ front_with m.now smpl at content ++ drop at out.old }
{
    byte_copy::copy(&m[..at], out);
    put32(content, (smpl.at as usize) + 4, out);
}

// Writes the module with the block at a place replaced to the front of an output that has room for it.
fn write_samples(m: &[u8], smpl: ChunkSpan, at: usize, new: &[u8], out: &mut [u8])
    requires { SampleIn m.now smpl at × (length new.now ≤ 16777216)
        × (length (block_replaced m.now smpl at new.now) ≤ length out.old) }
    ensures { out.new ≡ block_replaced m.now smpl at new.now
        ++ drop (length (block_replaced m.now smpl at new.now)) out.old }
{
    let old = size(m, BlockKind::Sample, at);
    let content = (smpl.length as usize) - old + (SAMPLE_BYTES + new.len());
    write_front(m, smpl, at, content as u32, out);
    let end = at + write_block(new, &mut out[at..]);
    let rest = at + old;
    byte_copy::copy(&m[rest..], &mut out[end..]);
}

// The place of INST's data after a block of SMPL of one length is replaced by one of another: what comes after the block moves.
fn place_afterwards(inst: ChunkSpan, smpl: ChunkSpan, old: usize, new: usize) -> usize
    requires { (smpl.at ≤ inst.at → old ≤ inst.at) × (new ≤ 16777224) }
    ensures { result ≡ place_afterwards inst smpl old new }
{
    let at = (inst.at as usize) + 8;
    if inst.at < smpl.at {
        return at;
    }
    at - old + new
}

// Writes the result to the front of an output that has room for it, and returns the number of loops that are cleared.
fn write_result(m: &[u8], l: Layout, at: usize, sample: usize, new: &[u8], out: &mut [u8]) -> usize
    requires { (opened m.now ≡ Ok l) × (there m.now l Sample sample ≡ true)
        × (at ≡ block_at m.now SampleBlock l.spans.smpl (sample - 1)) × (length new.now ≤ 16777216)
        × (length (replaced_module m.now l sample new.now) ≤ length out.old) }
    ensures { (result ≡ cleared_count m.now l sample (new_frames new.now))
        × (out.new ≡ replaced_module m.now l sample new.now
        ++ drop (length (replaced_module m.now l sample new.now)) out.old) }
{
    let p = l.spans;
    let old = size(m, BlockKind::Sample, at);
    write_samples(m, p.smpl, at, new, out);
    let start = place_afterwards(p.inst, p.smpl, old, SAMPLE_BYTES + new.len());
    write_instruments(
        m,
        p.inst,
        l.instruments,
        sample,
        new.len() / 2,
        &mut out[start..],
    )
}

// Replaces the sample whose block is at a place: 19, 1, 17. The bytes that are kept are all except the old frames.
fn replace_at(
    m: &[u8],
    l: Layout,
    at: usize,
    sample: usize,
    new: &[u8],
    out: &mut [u8],
) -> ReplaceAnswer
    requires { (opened m.now ≡ Ok l) × (there m.now l Sample sample ≡ true)
        × (at ≡ block_at m.now SampleBlock l.spans.smpl (sample - 1)) }
    ensures { (result ≡ replace_if m.now sample new.now (length out.old) (Ok l))
        × (out.new ≡ replace_output_if m.now sample new.now out.old (Ok l)) }
{
    if new.len() % 2 != 0 {
        return refused(refuse(Reason::OddFrames, 0));
    }
    let kept = m.len() - (size(m, BlockKind::Sample, at) - SAMPLE_BYTES);
    if 16777216 - kept < new.len() {
        return refused(refuse(Reason::TooLong, 0));
    }
    let length = kept + new.len();
    if out.len() < length {
        return refused(refuse(Reason::Room, length));
    }
    let cleared = write_result(m, l, at, sample, new, out);
    ReplaceAnswer {
        outcome: Outcome::from(Ok(())),
        length,
        cleared,
    }
}

// Replaces a sample of an accepted module: 18, 19, 1, 17.
fn replace_opened(m: &[u8], l: Layout, sample: usize, new: &[u8], out: &mut [u8]) -> ReplaceAnswer
    requires { opened m.now ≡ Ok l }
    ensures { (result ≡ replace_if m.now sample new.now (length out.old) (Ok l))
        × (out.new ≡ replace_output_if m.now sample new.now out.old (Ok l)) }
{
    match find_in(m, l, RecordKind::Sample, sample) {
        Ok(b) => replace_at(m, l, b.at, sample, new, out),
        Err(r) => refused(r),
    }
}

// Replaces a sample, counted from 1, by 16-bit frames. The refusals are the module's own, then 18, 19, 1, 17.
pub fn replace(m: &[u8], sample: usize, new: &[u8], out: &mut [u8]) -> ReplaceAnswer
    ensures { (result ≡ replace_answer m.now sample new.now (length out.old))
        × (out.new ≡ replace_output m.now sample new.now out.old) }
{
    match module::open(m) {
        Ok(l) => replace_opened(m, l, sample, new, out),
        Err(r) => refused(r),
    }
}
