// The checked fields of the blocks, in the order of the chunks: refusals 12 and 13. Songs and instruments are checked here, envelopes in
// their own file.

#![tactic(auto)]

mod envelopes;

ghost use Rattle.std.specs.Prelude.{◌≡◌};
ghost use Rattle.refusal.specs.Numbers.{verdict_numbers, IsAnswer};
ghost use Rattle.refusal.specs.Rules.{first_broken, rules_of_each};
ghost use Rattle.numbers.specs.Numbers.{SmallPlace};
ghost use Rattle.blocks.specs.Sizes.{blocks_of, envelope_blocks};
ghost use Rattle.blocks.specs.declared.BlockKind.TheVariants.{Song, Instrument};
ghost use Rattle.fields.specs.Fields.{song_rules, instrument_rules, envelope_rules, field_rules};

use crate::envelopes::{check_envelope, panning_fits};
use blocks::stored::{
    INSTRUMENT_FLAGS, INSTRUMENT_PANNING, INSTRUMENT_SAMPLE, INSTRUMENT_VOLUME, SONG_ENTRIES,
    instrument_flags, instrument_panning, instrument_sample, instrument_volume, song_entry,
    song_length,
};
use blocks::{BlockKind, envelope_count, places};
use layout::{ChunkSpan, Layout};
use refusal::{Reason, Refusal, refuse};

// Checks the playlist of the song at a place.
fn check_song(m: &[u8], at: usize, patterns: u16) -> Result<(), Refusal>
    requires { SmallPlace at }
    ensures { result ≡ first_broken (song_rules m.now patterns at) }
{
    for entry in 0..song_length(m, at) {
        if patterns <= song_entry(m, at, entry) {
            return Err(refuse(Reason::Reference, at + SONG_ENTRIES + 2 * (entry as usize)));
        }
    }
    Ok(())
}

// Checks the fields of the instrument at a place.
fn check_instrument(m: &[u8], at: usize, samples: u16) -> Result<(), Refusal>
    requires { SmallPlace at }
    ensures { result ≡ first_broken (instrument_rules m.now samples at) }
{
    let sample = instrument_sample(m, at);
    let volume = instrument_volume(m, at);
    if samples < sample {
        return Err(refuse(Reason::Reference, at + INSTRUMENT_SAMPLE));
    }
    if 64 < volume {
        return Err(refuse(Reason::FieldRange, at + INSTRUMENT_VOLUME));
    }
    if !panning_fits(instrument_panning(m, at)) {
        return Err(refuse(Reason::FieldRange, at + INSTRUMENT_PANNING));
    }
    if 4 <= instrument_flags(m, at) {
        return Err(refuse(Reason::FieldRange, at + INSTRUMENT_FLAGS));
    }
    Ok(())
}

// Checks the playlists of the songs.
fn check_songs(m: &[u8], chunk: ChunkSpan, songs: u16, patterns: u16) -> Result<(), Refusal>
    ensures { result ≡ first_broken (rules_of_each (song_rules m.now patterns) (blocks_of m.now Song chunk songs)) }
{
    for at in places(m, BlockKind::Song, chunk, songs) {
        check_song(m, at, patterns)?;
    }
    Ok(())
}

// Checks the fields of the instruments.
fn check_instruments(
    m: &[u8],
    chunk: ChunkSpan,
    instruments: u16,
    samples: u16,
) -> Result<(), Refusal>
    ensures { result ≡ first_broken (rules_of_each (instrument_rules m.now samples) (blocks_of m.now Instrument chunk instruments)) }
{
    for at in places(m, BlockKind::Instrument, chunk, instruments) {
        check_instrument(m, at, samples)?;
    }
    Ok(())
}

// Checks the fields of the envelopes of a chunk.
fn check_envelopes(
    m: &[u8],
    chunk: ChunkSpan,
    instruments: u16,
    signed: bool,
) -> Result<(), Refusal>
    ensures { result ≡ first_broken (rules_of_each (envelope_rules m.now instruments signed) (envelope_blocks m.now chunk)) }
{
    for at in places(m, BlockKind::Envelope, chunk, envelope_count(m, chunk)) {
        check_envelope(m, at, instruments, signed)?;
    }
    Ok(())
}

// Checks the fields of all blocks: SONG, INST, VENV, PENV.
pub fn check(m: &[u8], l: Layout) -> Result<(), Refusal>
    ensures { IsAnswer verdict_numbers result (first_broken (field_rules m.now l)) }
{
    check_songs(m, l.spans.song, l.songs, l.patterns)?;
    check_instruments(m, l.spans.inst, l.instruments, l.samples)?;
    check_envelopes(m, l.spans.venv, l.instruments, false)?;
    check_envelopes(m, l.spans.penv, l.instruments, l.version == 3)
}
