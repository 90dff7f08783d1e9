// Samples: width and number of frames, the frames as a part of the module itself, one frame and all frames at 16 bits. Each query gives the
// module's own refusal, then 18, then 17.

#![tactic(auto)]

ghost use Rattle.std.specs.Prelude.{◌≡◌, ◌*◌, ◌/◌, ◌<◌, ◌+◌, min, length};
ghost use Rattle.refusal.specs.Lengths.{length_if, output_of};
ghost use Rattle.numbers.specs.Numbers.{SmallPlace, signed16};
ghost use Rattle.samples.specs.Shown.{bytes_per_frame, frame16, no_sample, shown_sample, sample_answer, no_frames, shown_frames};
ghost use Rattle.samples.specs.Shown.{frames_answer, frames_part, no_frame, frame_in, frame_answer, all_frames_size};
ghost use Rattle.samples.specs.Shown.{all_frames, all_frames_answer, all_frames_output};
ghost use Rattle.samples.specs.Steps.{frames_from};

use blocks::stored::{SAMPLE_BYTES, sample_flags, sample_frames};
use blocks::{RecordKind, width};
use numbers::{byte, number16, number32, part, signed};
use queries::find;
use refusal::{LengthAnswer, Outcome, Reason, Refusal, refuse};

// A sample: the bits of a frame (8, 16 or 32), and the number of frames.
#[repr(C)]
#[derive(Clone, Copy)]
pub struct SampleAnswer {
    pub outcome: Outcome,
    pub width: u8,
    pub frames: u32,
}

// The offset of a sample's frames in the module, and their length in bytes.
#[repr(C)]
#[derive(Clone, Copy)]
pub struct FramesAnswer {
    pub outcome: Outcome,
    pub offset: usize,
    pub length: usize,
}

// A frame at 16 bits.
#[repr(C)]
#[derive(Clone, Copy)]
pub struct FrameAnswer {
    pub outcome: Outcome,
    pub frame: i16,
}

// The bytes of a frame of the sample at a place: 1, 2 or 4 in an accepted module.
fn frame_bytes(m: &[u8], at: usize) -> usize
    ensures { (result ≡ bytes_per_frame m.now at) × (result < 5) }
{
    width(sample_flags(m, at))
}

fn no_sample(r: Refusal) -> SampleAnswer
    ensures { result ≡ no_sample r }
{
    SampleAnswer {
        outcome: Outcome::from(Err(r)),
        width: 0,
        frames: 0,
    }
}

// The sample whose block is at a place.
fn sample_at(m: &[u8], at: usize) -> SampleAnswer
    ensures { result ≡ shown_sample m.now at }
{
    SampleAnswer {
        outcome: Outcome::from(Ok(())),
        width: (8 * frame_bytes(m, at)) as u8,
        frames: sample_frames(m, at),
    }
}

// A sample, counted from 1.
pub fn sample(m: &[u8], sample: usize) -> SampleAnswer
    ensures { result ≡ sample_answer m.now sample }
{
    match find(m, RecordKind::Sample, sample) {
        Ok(b) => sample_at(m, b.at),
        Err(r) => no_sample(r),
    }
}

fn no_frames(r: Refusal) -> FramesAnswer
    ensures { result ≡ no_frames r }
{
    FramesAnswer {
        outcome: Outcome::from(Err(r)),
        offset: 0,
        length: 0,
    }
}

// The frames of the sample whose block is at a place.
fn frames_at(m: &[u8], at: usize) -> FramesAnswer
    requires { SmallPlace at }
    ensures { result ≡ shown_frames m.now at }
{
    FramesAnswer {
        outcome: Outcome::from(Ok(())),
        offset: at + SAMPLE_BYTES,
        length: (sample_frames(m, at) as usize) * frame_bytes(m, at),
    }
}

// The refusal of `frames` on the same inputs, or none; and the offset of the frames in the module.
pub fn frames_place(m: &[u8], sample: usize) -> FramesAnswer
    ensures { result ≡ frames_answer m.now sample }
{
    match find(m, RecordKind::Sample, sample) {
        Ok(b) => frames_at(m, b.at),
        Err(r) => no_frames(r),
    }
}

// The frames of a sample, counted from 1: a part of the module itself, at the offset that `frames_place` answers. The part is empty if that
// call gives a refusal.
pub fn frames(m: &[u8], sample: usize) -> &[u8]
    ensures { (result.now ≡ frames_part m.now sample)
        × (result.ref_ptr.0 ≡ m.entry.ref_ptr.0)
        × (result.ref_ptr.1 ≡ min (frames_answer m.now sample).offset (length m.now) + m.entry.ref_ptr.1) }
{
    let a = frames_place(m, sample);
    part(m, a.offset, a.length)
}

// A stored 32-bit frame as a stored 16-bit frame: divided by 65,536 and rounded down.
fn rounded_down(v: u32) -> u16
    ensures { result ≡ v / 65536 }
{
    (v / 65536) as u16
}

// A frame with the given number of bytes, as it is stored at 16 bits: 8-bit times 256, 32-bit divided by 65,536 and rounded down.
fn at_16_bits(m: &[u8], bytes: usize, at: usize) -> u16
    ensures { signed16 result ≡ frame16 m.now bytes at }
{
    if bytes == 1 {
        return (byte(m, at) as u16) * 256;
    }
    if bytes == 2 {
        return number16(m, at);
    }
    rounded_down(number32(m, at))
}

fn no_frame(r: Refusal) -> FrameAnswer
    ensures { result ≡ no_frame r }
{
    FrameAnswer {
        outcome: Outcome::from(Err(r)),
        frame: 0,
    }
}

// A frame of the sample whose block is at a place: 18.
fn frame_in(m: &[u8], at: usize, frame: usize) -> FrameAnswer
    requires { SmallPlace at }
    ensures { result ≡ frame_in m.now at frame }
{
    if (sample_frames(m, at) as usize) <= frame {
        return no_frame(refuse(Reason::NotThere, 0));
    }
    let bytes = frame_bytes(m, at);
    FrameAnswer {
        outcome: Outcome::from(Ok(())),
        frame: signed(at_16_bits(m, bytes, at + SAMPLE_BYTES + frame * bytes)),
    }
}

// A frame of a sample at 16 bits: the sample counted from 1, the frame from 0.
pub fn frame(m: &[u8], sample: usize, frame: usize) -> FrameAnswer
    ensures { result ≡ frame_answer m.now sample frame }
{
    match find(m, RecordKind::Sample, sample) {
        Ok(b) => frame_in(m, b.at, frame),
        Err(r) => no_frame(r),
    }
}

// Writes the given number of frames at a place, each with the given number of bytes, at 16 bits.
fn write_frames(m: &[u8], bytes: usize, at: usize, frames: usize, out: &mut [u8])
    requires { SmallPlace at × ((bytes < 5) × ((frames < 0x100000000) × (length out.old ≡ 2 * frames))) }
    ensures { out.new ≡ frames_from m.now bytes (at + 8) frames }
{
    for i in 0..frames {
        let v = at_16_bits(m, bytes, at + SAMPLE_BYTES + i * bytes);
        out[2 * i] = (v / 256) as u8;
        out[2 * i + 1] = (v % 256) as u8;
    }
}

// Writes all frames of the sample whose block is at a place: 17.
fn all_frames_in(m: &[u8], at: usize, out: &mut [u8]) -> LengthAnswer
    requires { SmallPlace at }
    ensures { (result ≡ length_if (all_frames_size m.now at) (length out.old))
        × (out.new ≡ output_of (all_frames_size m.now at) (all_frames m.now at) out.old) }
{
    let frames = sample_frames(m, at) as usize;
    let needed = 2 * frames;
    if out.len() < needed {
        return LengthAnswer::from(Err(refuse(Reason::Room, needed)));
    }
    write_frames(m, frame_bytes(m, at), at, frames, &mut out[..needed]);
    LengthAnswer::from(Ok(needed))
}

// Writes all frames of a sample at 16 bits, 2 bytes for each.
pub fn all_frames(m: &[u8], sample: usize, out: &mut [u8]) -> LengthAnswer
    ensures { (result ≡ all_frames_answer m.now sample (length out.old))
        × (out.new ≡ all_frames_output m.now sample out.old) }
{
    match find(m, RecordKind::Sample, sample) {
        Ok(b) => all_frames_in(m, b.at, out),
        Err(r) => LengthAnswer::from(Err(r)),
    }
}
