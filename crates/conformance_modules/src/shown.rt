// The records of a module: a line for each query, with a word, the refusal's number and place, and the fields of the record. Names, parts
// and outputs come last, in hexadecimal.
use crate::signed::{put_all_signed, put_signed, put_words};
use conformance_text::answers::{print_cell_answer, print_output};
use conformance_text::text::{begin, fill, finish, finish_bytes, print_bytes, print_numbers};
use envelopes::{CountAnswer, EnvelopeAnswer, EnvelopeKind};

// The indices of the queries.
#[derive(Clone, Copy)]
pub struct Asked {
    pub song: usize,
    pub entry: usize,
    pub instrument: usize,
    pub envelope: usize,
    pub pattern: usize,
    pub row: usize,
    pub track: usize,
    pub sample: usize,
    pub frame: usize,
}

fn print_version(m: &[u8], line: &mut [u8]) {
    let a = summary::version(m);
    let numbers = [
        a.outcome.number as usize,
        a.outcome.place,
        a.version as usize,
        a.revision as usize,
    ];
    print_numbers(b"version", &numbers, line);
}

fn print_name(m: &[u8], line: &mut [u8]) {
    let a = summary::name(m);
    let name = a.name;
    print_bytes(
        b"name",
        &[a.outcome.number as usize, a.outcome.place],
        &name,
        line,
    );
}

fn print_info(m: &[u8], line: &mut [u8]) {
    let a = summary::info(m);
    let numbers = [
        a.outcome.number as usize,
        a.outcome.place,
        a.instruments as usize,
        a.samples as usize,
        a.songs as usize,
        a.patterns as usize,
        a.tracks as usize,
    ];
    print_numbers(b"info", &numbers, line);
}

fn print_song(m: &[u8], song: usize, line: &mut [u8]) {
    let a = songs::song(m, song);
    let name = a.name;
    let numbers = [
        a.outcome.number as usize,
        a.outcome.place,
        a.length as usize,
    ];
    print_bytes(b"song", &numbers, &name, line);
}

fn print_entry(m: &[u8], song: usize, entry: usize, line: &mut [u8]) {
    let a = songs::entry(m, song, entry);
    let numbers = [
        a.outcome.number as usize,
        a.outcome.place,
        a.pattern as usize,
    ];
    print_numbers(b"entry", &numbers, line);
}

fn print_playlist(m: &[u8], song: usize, out: &mut [u8], line: &mut [u8]) {
    fill(out);
    let a = songs::playlist(m, song, out);
    print_output(b"playlist", a, out, line);
}

fn print_instrument(m: &[u8], instrument: usize, line: &mut [u8]) {
    let a = instruments::instrument(m, instrument);
    let name = a.name;
    let numbers = [
        a.outcome.number as usize,
        a.outcome.place,
        a.sample as usize,
        a.volume as usize,
        a.rate as usize,
        a.loop_start as usize,
        a.loop_length as usize,
        a.flags as usize,
    ];
    let mut at = begin(line, b"instrument", &numbers);
    at = put_signed(line, at, a.panning as i32);
    finish_bytes(line, at, &name);
}

fn print_count(word: &[u8], a: CountAnswer, line: &mut [u8]) {
    print_numbers(
        word,
        &[a.outcome.number as usize, a.outcome.place, a.count as usize],
        line,
    );
}

fn print_counts(m: &[u8], line: &mut [u8]) {
    print_count(
        b"volume_envelopes",
        envelopes::count(m, EnvelopeKind::Volume),
        line,
    );
    print_count(
        b"panning_envelopes",
        envelopes::count(m, EnvelopeKind::Panning),
        line,
    );
}

// Ends the line of an envelope: the positions of all points, and then their values.
fn finish_points(line: &mut [u8], at: usize, positions: [u16; 32], values: [i32; 32]) {
    let next = put_words(line, at, &positions);
    let end = put_all_signed(line, next, &values);
    finish(line, end);
}

fn print_envelope(word: &[u8], a: EnvelopeAnswer, line: &mut [u8]) {
    let positions = a.positions;
    let values = a.values;
    let numbers = [
        a.outcome.number as usize,
        a.outcome.place,
        a.instrument as usize,
        a.flags as usize,
        a.sections as usize,
        a.first_sustain as usize,
        a.loop_first as usize,
        a.loop_last as usize,
        a.second_sustain as usize,
    ];
    let at = begin(line, word, &numbers);
    finish_points(line, at, positions, values);
}

fn print_volume_envelope(m: &[u8], envelope: usize, line: &mut [u8]) {
    let a = envelopes::envelope(m, EnvelopeKind::Volume, envelope);
    print_envelope(b"volume_envelope", a, line);
}

fn print_panning_envelope(m: &[u8], envelope: usize, line: &mut [u8]) {
    let a = envelopes::envelope(m, EnvelopeKind::Panning, envelope);
    print_envelope(b"panning_envelope", a, line);
}

fn print_envelopes(m: &[u8], envelope: usize, line: &mut [u8]) {
    print_counts(m, line);
    print_volume_envelope(m, envelope, line);
    print_panning_envelope(m, envelope, line);
}

fn print_rows(m: &[u8], pattern: usize, line: &mut [u8]) {
    let a = patterns::rows(m, pattern);
    print_numbers(
        b"rows",
        &[a.outcome.number as usize, a.outcome.place, a.rows as usize],
        line,
    );
}

fn print_cell(m: &[u8], pattern: usize, row: usize, track: usize, line: &mut [u8]) {
    print_cell_answer(patterns::cell(m, pattern, row, track), line);
}

fn print_unpack(m: &[u8], pattern: usize, out: &mut [u8], line: &mut [u8]) {
    fill(out);
    let a = patterns::unpack(m, pattern, out);
    print_output(b"unpack", a, out, line);
}

fn print_sample(m: &[u8], sample: usize, line: &mut [u8]) {
    let a = samples::sample(m, sample);
    let numbers = [
        a.outcome.number as usize,
        a.outcome.place,
        a.width as usize,
        a.frames as usize,
    ];
    print_numbers(b"sample", &numbers, line);
}

// At most 65,536 bytes of the part are printed.
fn print_frames(m: &[u8], sample: usize, line: &mut [u8]) {
    let a = samples::frames_place(m, sample);
    let part = samples::frames(m, sample);
    let n = part.len().min(65536);
    let numbers = [
        a.outcome.number as usize,
        a.outcome.place,
        a.offset,
        a.length,
    ];
    print_bytes(b"frames", &numbers, &part[..n], line);
}

fn print_frame(m: &[u8], sample: usize, frame: usize, line: &mut [u8]) {
    let a = samples::frame(m, sample, frame);
    let mut at = begin(
        line,
        b"frame",
        &[a.outcome.number as usize, a.outcome.place],
    );
    at = put_signed(line, at, a.frame as i32);
    finish(line, at);
}

fn print_all_frames(m: &[u8], sample: usize, out: &mut [u8], line: &mut [u8]) {
    fill(out);
    let a = samples::all_frames(m, sample, out);
    print_output(b"all_frames", a, out, line);
}

fn print_summary(m: &[u8], line: &mut [u8]) {
    print_version(m, line);
    print_name(m, line);
    print_info(m, line);
}

fn print_songs(m: &[u8], song: usize, entry: usize, out: &mut [u8], line: &mut [u8]) {
    print_song(m, song, line);
    print_entry(m, song, entry, line);
    print_playlist(m, song, out, line);
}

fn print_pattern(
    m: &[u8],
    pattern: usize,
    row: usize,
    track: usize,
    out: &mut [u8],
    line: &mut [u8],
) {
    print_rows(m, pattern, line);
    print_cell(m, pattern, row, track, line);
    print_unpack(m, pattern, out, line);
}

fn print_samples(m: &[u8], sample: usize, frame: usize, out: &mut [u8], line: &mut [u8]) {
    print_sample(m, sample, line);
    print_frames(m, sample, line);
    print_frame(m, sample, frame, line);
    print_all_frames(m, sample, out, line);
}

// Prints the answer of each query.
pub fn print_records(m: &[u8], a: Asked, out: &mut [u8], line: &mut [u8]) {
    print_summary(m, line);
    print_songs(m, a.song, a.entry, out, line);
    print_instrument(m, a.instrument, line);
    print_envelopes(m, a.envelope, line);
    print_pattern(m, a.pattern, a.row, a.track, out, line);
    print_samples(m, a.sample, a.frame, out, line);
}
