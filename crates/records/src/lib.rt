// All records of a module by one call: one check of the module, and one pass over its blocks. Each record contains exactly what its own
// query answers.

#![tactic(auto)]

ghost use Rattle.std.specs.Prelude.{◌≡◌, ◌++◌, ◌<◌, ◌≤◌, length, drop};
ghost use Rattle.std.specs.Int.Signed.{mag};
ghost use Rattle.vocabulary.specs.Lists.{Every};
ghost use Rattle.numbers.specs.Numbers.{SmallPlace, bytes_from, unsigned16, put_at};
ghost use Rattle.blocks.specs.StoredFields.{envelope_sections};
ghost use Rattle.blocks.specs.Sizes.{size_of, places_from};
ghost use Rattle.module.specs.Verdicts.{opened};
ghost use Rattle.module.specs.Outputs.{answer_opened, output_opened};
ghost use Rattle.samples.specs.Shown.{shown_sample};
ghost use Rattle.envelopes.specs.Shown.{record_kind};
ghost use Rattle.summary.specs.Shown.{shown_info};
ghost use Rattle.records.specs.Records.{info_record, counts_record, summary_record, sample_record, record_at, records_of, all_records, all_answer, all_output};
ghost use Rattle.records.specs.Steps.{point_record, points_from, records_from, ValuesScale};

use blocks::stored::{envelope_sections, sample_flags, sample_frames};
use blocks::{BlockKind, RecordKind, block_at, chunk_of, count_of, envelope_count, size, width};
use envelopes::{EnvelopeKind, position, value};
use layout::Layout;
use numbers::{copy, put16, put32};
use refusal::{LengthAnswer, Reason, refuse};
use summary::name_of;

// Writes the numbers of INFO and the numbers of volume and panning envelopes: 14 bytes from 46 on.
fn write_counts(m: &[u8], l: Layout, out: &mut [u8])
    requires { 60 ≤ length out.old }
    ensures { out.new ≡ put_at (info_record (shown_info l) ++ counts_record m.now l) 46 out.old }
{
    let p = l.spans;
    let volume = envelope_count(m, p.venv);
    let panning = envelope_count(m, p.penv);
    put16(l.instruments, 46, out);
    put16(l.samples, 48, out);
    put16(l.songs, 50, out);
    put16(l.patterns, 52, out);
    put16(l.tracks, 54, out);
    put16(volume, 56, out);
    put16(panning, 58, out);
}

// Writes the summary of a module to the front of an output: 60 bytes.
fn write_summary(m: &[u8], l: Layout, out: &mut [u8])
    requires { 60 ≤ length out.old }
    ensures { out.new ≡ summary_record m.now l ++ drop 60 out.old }
{
    let name = name_of(m, l);
    out[0] = l.version;
    out[1] = l.revision;
    byte_copy::copy(&name, &mut out[2..]);
    write_counts(m, l, out);
}

// Writes n bytes of the module, from a place on, to the front of an output, and returns n.
fn write_stored(m: &[u8], at: usize, n: usize, out: &mut [u8]) -> usize
    requires { n ≤ length out.old }
    ensures { (result ≡ n) × (out.new ≡ bytes_from m.now at n ++ drop n out.old) }
{
    copy(m, at, &mut out[..n]);
    n
}

// Writes the record of the sample at a place to the front of an output, and returns its length.
fn write_sample(m: &[u8], at: usize, out: &mut [u8]) -> usize
    requires { 6 ≤ length out.old }
    ensures { (result ≡ 6) × (out.new ≡ sample_record (shown_sample m.now at) ++ drop 6 out.old) }
{
    let bits = 8 * width(sample_flags(m, at));
    put16(bits as u16, 0, out);
    put32(sample_frames(m, at), 2, out);
    6
}

// A signed number as stored in 2 bytes: 65,536 is added if it is negative.
fn unsigned(v: i32) -> u16
    requires { mag v < 65536 }
    ensures { result ≡ unsigned16 v }
{
    (((v + 65536) as u32) % 65536) as u16
}

// Writes a point of the envelope at a place to the front of an output.
fn write_point(
    m: &[u8],
    kind: EnvelopeKind,
    version: u8,
    at: usize,
    sections: u8,
    point: u8,
    out: &mut [u8],
)
    requires { (sections ≡ envelope_sections m.now at) × ValuesScale m.now version (record_kind kind) at × (4 ≤ length out.old) }
    ensures { out.new ≡ point_record m.now kind version at point ++ drop 4 out.old }
{
    let p = position(m, at, sections, point);
    let v = value(m, kind, version, at, sections, point);
    put16(p, 0, out);
    put16(unsigned(v), 2, out);
}

// Writes the points of the envelope at a place to the front of an output.
fn write_points(m: &[u8], kind: EnvelopeKind, version: u8, at: usize, out: &mut [u8])
    requires { ValuesScale m.now version (record_kind kind) at × (128 ≤ length out.old) }
    ensures { out.new ≡ points_from m.now kind version at 32 0 ++ drop 128 out.old }
{
    let sections = envelope_sections(m, at);
    for point in 0..32 {
        let to = 4 * (point as usize);
        write_point(m, kind, version, at, sections, point, &mut out[to..]);
    }
}

// Writes the record of the envelope at a place to the front of an output, and returns its length.
fn write_envelope(m: &[u8], kind: EnvelopeKind, version: u8, at: usize, out: &mut [u8]) -> usize
    requires { ValuesScale m.now version (record_kind kind) at × (136 ≤ length out.old) }
    ensures { (result ≡ 136) × (out.new ≡ record_at m.now version (record_kind kind) at ++ drop 136 out.old) }
{
    copy(m, at, &mut out[..8]);
    write_points(m, kind, version, at, &mut out[8..]);
    136
}

// Writes the record of the block at a place to the front of an output, and returns its length.
fn write_record(m: &[u8], kind: RecordKind, version: u8, at: usize, out: &mut [u8]) -> usize
    requires { ValuesScale m.now version kind at × (length (record_at m.now version kind at) ≤ length out.old) }
    ensures { (result ≡ length (record_at m.now version kind at))
        × (out.new ≡ record_at m.now version kind at ++ drop result out.old) }
{
    match kind {
        RecordKind::Song => write_stored(m, at, size(m, BlockKind::Song, at), out),
        RecordKind::Instrument => write_stored(m, at, 50, out),
        RecordKind::Pattern => write_stored(m, at, 2, out),
        RecordKind::Sample => write_sample(m, at, out),
        RecordKind::VolumeEnvelope => write_envelope(m, EnvelopeKind::Volume, version, at, out),
        RecordKind::PanningEnvelope => write_envelope(m, EnvelopeKind::Panning, version, at, out),
    }
}

// Writes the records of `count` blocks from a place on to the front of an output, and returns their length.
fn write_blocks(
    m: &[u8],
    blocks: BlockKind,
    kind: RecordKind,
    version: u8,
    start: usize,
    count: u16,
    out: &mut [u8],
) -> usize
    requires { SmallPlace start
        × Every (ValuesScale m.now version kind) (places_from (size_of blocks m.now) count start)
        × (length (records_from m.now blocks kind version count start) ≤ length out.old) }
    ensures { (result ≡ length (records_from m.now blocks kind version count start))
        × (out.new ≡ records_from m.now blocks kind version count start ++ drop result out.old) }
{
    let mut at = start;
    let mut to: usize = 0;
    for _ in 0..count {
        to = to + write_record(m, kind, version, at, &mut out[to..]);
        at = at + size(m, blocks, at);
    }
    to
}

// Writes the records of all blocks of a record kind to the front of an output, and returns their length.
fn write_records(m: &[u8], l: Layout, kind: RecordKind, out: &mut [u8]) -> usize
    requires { (opened m.now ≡ Ok l) × (length (records_of m.now l kind) ≤ length out.old) }
    ensures { (result ≡ length (records_of m.now l kind)) × (out.new ≡ records_of m.now l kind ++ drop result out.old) }
{
    let blocks = BlockKind::from(kind);
    let start = block_at(m, blocks, chunk_of(l, kind), 0);
    let count = count_of(m, l, kind);
    write_blocks(m, blocks, kind, l.version, start, count, out)
}

// The length of the records of all blocks of a record kind. Those of songs are as long as their chunk's data.
fn records_length(m: &[u8], l: Layout, kind: RecordKind) -> usize
    requires { opened m.now ≡ Ok l }
    ensures { (result ≡ length (records_of m.now l kind)) × (result < 0x100000000) }
{
    let count = count_of(m, l, kind) as usize;
    match kind {
        RecordKind::Song => chunk_of(l, kind).length as usize,
        RecordKind::Instrument => count * 50,
        RecordKind::Pattern => count * 2,
        RecordKind::Sample => count * 6,
        RecordKind::VolumeEnvelope => count * 136,
        RecordKind::PanningEnvelope => count * 136,
    }
}

// The length of all records.
fn all_length(m: &[u8], l: Layout) -> usize
    requires { opened m.now ≡ Ok l }
    ensures { result ≡ length (all_records m.now l) }
{
    let songs = records_length(m, l, RecordKind::Song);
    let instruments = records_length(m, l, RecordKind::Instrument);
    let patterns = records_length(m, l, RecordKind::Pattern);
    let samples = records_length(m, l, RecordKind::Sample);
    let volume = records_length(m, l, RecordKind::VolumeEnvelope);
    let panning = records_length(m, l, RecordKind::PanningEnvelope);
    60 + songs + instruments + patterns + samples + volume + panning
}

// Writes all records to the front of an output that has room for them, and returns their length.
fn write_all(m: &[u8], l: Layout, out: &mut [u8]) -> usize
    requires { (opened m.now ≡ Ok l) × (length (all_records m.now l) ≤ length out.old) }
    ensures { (result ≡ length (all_records m.now l)) × (out.new ≡ all_records m.now l ++ drop result out.old) }
{
    write_summary(m, l, out);
    let mut to = 60;
    for kind in [
        RecordKind::Song,
        RecordKind::Instrument,
        RecordKind::Pattern,
        RecordKind::Sample,
        RecordKind::VolumeEnvelope,
        RecordKind::PanningEnvelope,
    ] {
        to = to + write_records(m, l, kind, &mut out[to..]);
    }
    to
}

// Writes all records of an accepted module. The only refusal is 17.
fn all_opened(m: &[u8], l: Layout, out: &mut [u8]) -> LengthAnswer
    requires { opened m.now ≡ Ok l }
    ensures { (result ≡ answer_opened (all_records m.now) (length out.old) (Ok l))
        × (out.new ≡ output_opened (all_records m.now) out.old (Ok l)) }
{
    let needed = all_length(m, l);
    if out.len() < needed {
        return LengthAnswer::from(Err(refuse(Reason::Room, needed)));
    }
    LengthAnswer::from(Ok(write_all(m, l, out)))
}

// Writes all records of a module. The refusals are the module's own, then 17.
pub fn all(m: &[u8], out: &mut [u8]) -> LengthAnswer
    ensures { (result ≡ all_answer m.now (length out.old)) × (out.new ≡ all_output m.now out.old) }
{
    match module::open(m) {
        Ok(l) => all_opened(m, l, out),
        Err(r) => LengthAnswer::from(Err(r)),
    }
}
