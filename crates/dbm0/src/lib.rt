// The C entry points of the module reader: the check of a module, every query about it, all its records, its repacking, the replacement of
// a sample, and the comparison with another module. An answer begins with the refusal's number (0: none) and place.

#![tactic(auto)]

ghost use Rattle.std.specs.Prelude.{◌≡◌, length};
ghost use Rattle.refusal.specs.Numbers.{outcome_numbers, verdict_numbers};
ghost use Rattle.packed_rows.specs.Answers.{cell_numbers};
ghost use Rattle.module.specs.Verdicts.{module_verdict};
ghost use Rattle.repack.specs.Repacked.{repack_answer, repack_output};
ghost use Rattle.replace.specs.Replaced.{replace_answer, replace_output};
ghost use Rattle.samples.specs.Shown.{sample_answer, frames_answer, frame_answer, all_frames_answer, all_frames_output};
ghost use Rattle.envelopes.specs.Shown.{count_answer, envelope_answer};
ghost use Rattle.envelopes.specs.declared.EnvelopeKind.TheVariants.{Volume, Panning};
ghost use Rattle.patterns.specs.Shown.{rows_answer, cell_answer, cells_answer, cells_output};
ghost use Rattle.songs.specs.Shown.{song_answer, entry_answer, playlist_answer, playlist_output};
ghost use Rattle.summary.specs.Shown.{version_answer, name_answer, info_answer};
ghost use Rattle.instruments.specs.Shown.{instrument_answer};
ghost use Rattle.records.specs.Records.{all_answer, all_output};
ghost use Rattle.compare.specs.Compared.{compare_answer, compare_output};
ghost use Rattle.dbm0.specs.Answers.{fields_of_cell};

use cells::{Cell, NoteNumbers};
use compare::CompareAnswer;
use envelopes::{CountAnswer, EnvelopeAnswer, EnvelopeKind};
use instruments::InstrumentAnswer;
use patterns::RowsAnswer;
use refusal::{LengthAnswer, Outcome, Refusal};
use replace::ReplaceAnswer;
use samples::{FrameAnswer, FramesAnswer, SampleAnswer};
use songs::{EntryAnswer, SongAnswer};
use summary::{InfoAnswer, NameAnswer, VersionAnswer};

// A cell.
#[repr(C)]
#[derive(Clone, Copy)]
pub struct PatternCell {
    pub outcome: Outcome,
    pub kind: u8,
    pub octave: u8,
    pub semitone: u8,
    pub unknown: u8,
    pub instrument: u8,
    pub command1: u8,
    pub parameter1: u8,
    pub command2: u8,
    pub parameter2: u8,
}

// Checks a module, for C.
#[unsafe(no_mangle)]
pub extern "C" fn dbm0_check_module(m: &[u8]) -> Outcome
    ensures { outcome_numbers result ≡ verdict_numbers (module_verdict m.now) }
{
    Outcome::from(module::check(m))
}

// Version and revision.
#[unsafe(no_mangle)]
pub extern "C" fn dbm0_version(m: &[u8]) -> VersionAnswer
    ensures { result ≡ version_answer m.now }
{
    summary::version(m)
}

// The module's name.
#[unsafe(no_mangle)]
pub extern "C" fn dbm0_name(m: &[u8]) -> NameAnswer
    ensures { result ≡ name_answer m.now }
{
    summary::name(m)
}

// INFO's numbers.
#[unsafe(no_mangle)]
pub extern "C" fn dbm0_info(m: &[u8]) -> InfoAnswer
    ensures { result ≡ info_answer m.now }
{
    summary::info(m)
}

// A song.
#[unsafe(no_mangle)]
pub extern "C" fn dbm0_song(m: &[u8], song: usize) -> SongAnswer
    ensures { result ≡ song_answer m.now song }
{
    songs::song(m, song)
}

// An entry of a song's playlist.
#[unsafe(no_mangle)]
pub extern "C" fn dbm0_entry(m: &[u8], song: usize, entry: usize) -> EntryAnswer
    ensures { result ≡ entry_answer m.now song entry }
{
    songs::entry(m, song, entry)
}

// A song's playlist.
#[unsafe(no_mangle)]
pub extern "C" fn dbm0_playlist(m: &[u8], song: usize, out: &mut [u8]) -> LengthAnswer
    ensures { (result ≡ playlist_answer m.now song (length out.old))
        × (out.new ≡ playlist_output m.now song out.old) }
{
    songs::playlist(m, song, out)
}

// An instrument.
#[unsafe(no_mangle)]
pub extern "C" fn dbm0_instrument(m: &[u8], instrument: usize) -> InstrumentAnswer
    ensures { result ≡ instrument_answer m.now instrument }
{
    instruments::instrument(m, instrument)
}

// The number of volume envelopes.
#[unsafe(no_mangle)]
pub extern "C" fn dbm0_volume_envelopes(m: &[u8]) -> CountAnswer
    ensures { result ≡ count_answer m.now Volume }
{
    envelopes::count(m, EnvelopeKind::Volume)
}

// The number of panning envelopes.
#[unsafe(no_mangle)]
pub extern "C" fn dbm0_panning_envelopes(m: &[u8]) -> CountAnswer
    ensures { result ≡ count_answer m.now Panning }
{
    envelopes::count(m, EnvelopeKind::Panning)
}

// A volume envelope.
#[unsafe(no_mangle)]
pub extern "C" fn dbm0_volume_envelope(m: &[u8], envelope: usize) -> EnvelopeAnswer
    ensures { result ≡ envelope_answer m.now Volume envelope }
{
    envelopes::envelope(m, EnvelopeKind::Volume, envelope)
}

// A panning envelope.
#[unsafe(no_mangle)]
pub extern "C" fn dbm0_panning_envelope(m: &[u8], envelope: usize) -> EnvelopeAnswer
    ensures { result ≡ envelope_answer m.now Panning envelope }
{
    envelopes::envelope(m, EnvelopeKind::Panning, envelope)
}

// The number of rows of a pattern.
#[unsafe(no_mangle)]
pub extern "C" fn dbm0_rows(m: &[u8], pattern: usize) -> RowsAnswer
    ensures { result ≡ rows_answer m.now pattern }
{
    patterns::rows(m, pattern)
}

fn no_cell(r: Refusal) -> PatternCell
    ensures { fields_of_cell result ≡ cell_numbers (Err r) }
{
    PatternCell {
        outcome: Outcome::from(Err(r)),
        kind: 0,
        octave: 0,
        semitone: 0,
        unknown: 0,
        instrument: 0,
        command1: 0,
        parameter1: 0,
        command2: 0,
        parameter2: 0,
    }
}

fn shown_cell(c: Cell) -> PatternCell
    ensures { fields_of_cell result ≡ cell_numbers (Ok c) }
{
    let stored = c.note;
    let note = NoteNumbers::from(stored);
    PatternCell {
        outcome: Outcome::from(Ok(())),
        kind: note.kind,
        octave: note.octave,
        semitone: note.semitone,
        unknown: note.unknown,
        instrument: c.instrument,
        command1: c.command1,
        parameter1: c.parameter1,
        command2: c.command2,
        parameter2: c.parameter2,
    }
}

// A cell of a pattern.
#[unsafe(no_mangle)]
pub extern "C" fn dbm0_cell(m: &[u8], pattern: usize, row: usize, track: usize) -> PatternCell
    ensures { fields_of_cell result ≡ cell_numbers (cell_answer m.now pattern row track) }
{
    match patterns::cell(m, pattern, row, track) {
        Ok(c) => shown_cell(c),
        Err(r) => no_cell(r),
    }
}

// All cells of a pattern.
#[unsafe(no_mangle)]
pub extern "C" fn dbm0_cells(m: &[u8], pattern: usize, out: &mut [u8]) -> LengthAnswer
    ensures { (result ≡ cells_answer m.now pattern (length out.old))
        × (out.new ≡ cells_output m.now pattern out.old) }
{
    patterns::unpack(m, pattern, out)
}

// A sample.
#[unsafe(no_mangle)]
pub extern "C" fn dbm0_sample(m: &[u8], sample: usize) -> SampleAnswer
    ensures { result ≡ sample_answer m.now sample }
{
    samples::sample(m, sample)
}

// The offset of a sample's frames in the module.
#[unsafe(no_mangle)]
pub extern "C" fn dbm0_frames(m: &[u8], sample: usize) -> FramesAnswer
    ensures { result ≡ frames_answer m.now sample }
{
    samples::frames_place(m, sample)
}

// A frame of a sample at 16 bits.
#[unsafe(no_mangle)]
pub extern "C" fn dbm0_frame(m: &[u8], sample: usize, frame: usize) -> FrameAnswer
    ensures { result ≡ frame_answer m.now sample frame }
{
    samples::frame(m, sample, frame)
}

// All frames of a sample at 16 bits.
#[unsafe(no_mangle)]
pub extern "C" fn dbm0_all_frames(m: &[u8], sample: usize, out: &mut [u8]) -> LengthAnswer
    ensures { (result ≡ all_frames_answer m.now sample (length out.old))
        × (out.new ≡ all_frames_output m.now sample out.old) }
{
    samples::all_frames(m, sample, out)
}

// All records of a module.
#[unsafe(no_mangle)]
pub extern "C" fn dbm0_records(m: &[u8], out: &mut [u8]) -> LengthAnswer
    ensures { (result ≡ all_answer m.now (length out.old)) × (out.new ≡ all_output m.now out.old) }
{
    records::all(m, out)
}

// Repacks a module.
#[unsafe(no_mangle)]
pub extern "C" fn dbm0_repack(m: &[u8], out: &mut [u8]) -> LengthAnswer
    ensures { (result ≡ repack_answer m.now (length out.old)) × (out.new ≡ repack_output m.now out.old) }
{
    repack::repack(m, out)
}

// Replaces a sample of a module.
#[unsafe(no_mangle)]
pub extern "C" fn dbm0_replace_sample(
    m: &[u8],
    sample: usize,
    new: &[u8],
    out: &mut [u8],
) -> ReplaceAnswer
    ensures { (result ≡ replace_answer m.now sample new.now (length out.old))
        × (out.new ≡ replace_output m.now sample new.now out.old) }
{
    replace::replace(m, sample, new, out)
}

// Compares two modules.
#[unsafe(no_mangle)]
pub extern "C" fn dbm0_compare(first: &[u8], second: &[u8], out: &mut [u8]) -> CompareAnswer
    ensures { (result ≡ compare_answer first.now second.now (length out.old))
        × (out.new ≡ compare_output first.now second.now out.old) }
{
    compare::compare(first, second, out)
}
