// The fields of the block at a place, as they are stored. A number past the module's end counts as 0, so no contract requires a place to be
// inside the module, or small.
ghost use Rattle.std.specs.Prelude.{◌≡◌, ◌+◌, ◌<◌, length};
ghost use Rattle.numbers.specs.Numbers.{byte_at, number16 as number16_at, number32 as number32_at};
ghost use Rattle.blocks.specs.StoredFields.{song_length, song_entry};
ghost use Rattle.blocks.specs.StoredFields.{instrument_sample, instrument_volume, instrument_rate, instrument_loop_start, instrument_loop_length};
ghost use Rattle.blocks.specs.StoredFields.{instrument_panning, instrument_flags, pattern_rows, pattern_packed_length, packed_bytes, sample_flags, sample_frames};
ghost use Rattle.blocks.specs.StoredFields.{envelope_instrument, envelope_flags, envelope_sections, envelope_first_sustain, envelope_loop_first};
ghost use Rattle.blocks.specs.StoredFields.{envelope_loop_last, envelope_second_sustain, envelope_position, envelope_value};

use numbers::{byte, number16, number32, part};

// The offsets of the fields of a song from its place: B2.
pub const SONG_LENGTH: usize = 44;

pub const SONG_ENTRIES: usize = 46;

// The offsets of the fields of an instrument: B3.
pub const INSTRUMENT_SAMPLE: usize = 30;

pub const INSTRUMENT_VOLUME: usize = 32;

pub const INSTRUMENT_RATE: usize = 34;

pub const INSTRUMENT_LOOP_START: usize = 38;

pub const INSTRUMENT_LOOP_LENGTH: usize = 42;

pub const INSTRUMENT_PANNING: usize = 46;

pub const INSTRUMENT_FLAGS: usize = 48;

// The offsets of the fields of a pattern: B4.
pub const PATTERN_ROWS: usize = 0;

pub const PATTERN_PACKED_LENGTH: usize = 2;

pub const PACKED_BYTES: usize = 6;

// The offsets of the fields of a sample: B5.
pub const SAMPLE_FLAGS: usize = 0;

pub const SAMPLE_FRAMES: usize = 4;

pub const SAMPLE_BYTES: usize = 8;

// The offsets of the fields of an envelope: B6.
pub const ENVELOPE_INSTRUMENT: usize = 0;

pub const ENVELOPE_FLAGS: usize = 2;

pub const ENVELOPE_SECTIONS: usize = 3;

pub const ENVELOPE_FIRST_SUSTAIN: usize = 4;

pub const ENVELOPE_LOOP_FIRST: usize = 5;

pub const ENVELOPE_LOOP_LAST: usize = 6;

pub const ENVELOPE_SECOND_SUSTAIN: usize = 7;

pub const ENVELOPE_POINTS: usize = 8;

// The offset of the value of a point. The position of the point is before it.
pub const POINT_VALUE: usize = 2;

// The byte at an offset from a place.
fn byte_after(m: &[u8], at: usize, offset: usize) -> u8
    requires { offset < 0x100000000 }
    ensures { result ≡ byte_at m.now (at + offset) }
{
    if m.len() <= at {
        return 0;
    }
    byte(m, at + offset)
}

// The 2-byte number at an offset from a place.
fn number16_after(m: &[u8], at: usize, offset: usize) -> u16
    requires { offset < 0x100000000 }
    ensures { result ≡ number16_at m.now (at + offset) }
{
    if m.len() <= at {
        return 0;
    }
    number16(m, at + offset)
}

// The 4-byte number at an offset from a place.
fn number32_after(m: &[u8], at: usize, offset: usize) -> u32
    requires { offset < 0x100000000 }
    ensures { result ≡ number32_at m.now (at + offset) }
{
    if m.len() <= at {
        return 0;
    }
    number32(m, at + offset)
}

// The number of entries of the playlist of the song at a place.
pub fn song_length(m: &[u8], at: usize) -> u16
    ensures { result ≡ song_length m.now at }
{
    number16_after(m, at, SONG_LENGTH)
}

// An entry of its playlist, counted from 0.
pub fn song_entry(m: &[u8], at: usize, entry: u16) -> u16
    ensures { result ≡ song_entry m.now at entry }
{
    number16_after(m, at, SONG_ENTRIES + 2 * (entry as usize))
}

// The sample of the instrument at a place.
pub fn instrument_sample(m: &[u8], at: usize) -> u16
    ensures { result ≡ instrument_sample m.now at }
{
    number16_after(m, at, INSTRUMENT_SAMPLE)
}

// Its volume.
pub fn instrument_volume(m: &[u8], at: usize) -> u16
    ensures { result ≡ instrument_volume m.now at }
{
    number16_after(m, at, INSTRUMENT_VOLUME)
}

// Its rate.
pub fn instrument_rate(m: &[u8], at: usize) -> u32
    ensures { result ≡ instrument_rate m.now at }
{
    number32_after(m, at, INSTRUMENT_RATE)
}

// The start of its loop.
pub fn instrument_loop_start(m: &[u8], at: usize) -> u32
    ensures { result ≡ instrument_loop_start m.now at }
{
    number32_after(m, at, INSTRUMENT_LOOP_START)
}

// The length of its loop.
pub fn instrument_loop_length(m: &[u8], at: usize) -> u32
    ensures { result ≡ instrument_loop_length m.now at }
{
    number32_after(m, at, INSTRUMENT_LOOP_LENGTH)
}

// Its panning, not yet taken as signed.
pub fn instrument_panning(m: &[u8], at: usize) -> u16
    ensures { result ≡ instrument_panning m.now at }
{
    number16_after(m, at, INSTRUMENT_PANNING)
}

// Its flags.
pub fn instrument_flags(m: &[u8], at: usize) -> u16
    ensures { result ≡ instrument_flags m.now at }
{
    number16_after(m, at, INSTRUMENT_FLAGS)
}

// The rows of the pattern at a place.
pub fn pattern_rows(m: &[u8], at: usize) -> u16
    ensures { result ≡ pattern_rows m.now at }
{
    number16_after(m, at, PATTERN_ROWS)
}

// The number of its packed bytes.
pub fn pattern_packed_length(m: &[u8], at: usize) -> u32
    ensures { result ≡ pattern_packed_length m.now at }
{
    number32_after(m, at, PATTERN_PACKED_LENGTH)
}

// Its packed bytes.
pub fn packed_bytes(m: &[u8], at: usize) -> &[u8]
    ensures { (result.now ≡ packed_bytes m.now at) × (length result.now < 0x100000000) }
{
    let length = pattern_packed_length(m, at) as usize;
    if m.len() <= at {
        return part(m, at, length);
    }
    part(m, at + PACKED_BYTES, length)
}

// The flags of the sample at a place.
pub fn sample_flags(m: &[u8], at: usize) -> u32
    ensures { result ≡ sample_flags m.now at }
{
    number32_after(m, at, SAMPLE_FLAGS)
}

// The number of its frames.
pub fn sample_frames(m: &[u8], at: usize) -> u32
    ensures { result ≡ sample_frames m.now at }
{
    number32_after(m, at, SAMPLE_FRAMES)
}

// The instrument of the envelope at a place.
pub fn envelope_instrument(m: &[u8], at: usize) -> u16
    ensures { result ≡ envelope_instrument m.now at }
{
    number16_after(m, at, ENVELOPE_INSTRUMENT)
}

// Its flags.
pub fn envelope_flags(m: &[u8], at: usize) -> u8
    ensures { result ≡ envelope_flags m.now at }
{
    byte_after(m, at, ENVELOPE_FLAGS)
}

// Its sections.
pub fn envelope_sections(m: &[u8], at: usize) -> u8
    ensures { result ≡ envelope_sections m.now at }
{
    byte_after(m, at, ENVELOPE_SECTIONS)
}

// S1.
pub fn envelope_first_sustain(m: &[u8], at: usize) -> u8
    ensures { result ≡ envelope_first_sustain m.now at }
{
    byte_after(m, at, ENVELOPE_FIRST_SUSTAIN)
}

// L1.
pub fn envelope_loop_first(m: &[u8], at: usize) -> u8
    ensures { result ≡ envelope_loop_first m.now at }
{
    byte_after(m, at, ENVELOPE_LOOP_FIRST)
}

// L2.
pub fn envelope_loop_last(m: &[u8], at: usize) -> u8
    ensures { result ≡ envelope_loop_last m.now at }
{
    byte_after(m, at, ENVELOPE_LOOP_LAST)
}

// S2.
pub fn envelope_second_sustain(m: &[u8], at: usize) -> u8
    ensures { result ≡ envelope_second_sustain m.now at }
{
    byte_after(m, at, ENVELOPE_SECOND_SUSTAIN)
}

// The position of a point, counted from 0.
pub fn envelope_position(m: &[u8], at: usize, point: u8) -> u16
    ensures { result ≡ envelope_position m.now at point }
{
    number16_after(m, at, ENVELOPE_POINTS + 4 * (point as usize))
}

// The value of a point, not yet taken as signed.
pub fn envelope_value(m: &[u8], at: usize, point: u8) -> u16
    ensures { result ≡ envelope_value m.now at point }
{
    number16_after(m, at, ENVELOPE_POINTS + POINT_VALUE + 4 * (point as usize))
}
