// The walk over the chunks, from the front: refusals 4, 5, 4, 6, 7, 9, 10 for each chunk.
ghost use Rattle.std.specs.Prelude.{◌≡◌, [], true, cond, ℕ, ◌+◌, ◌<◌, ◌≤◌, length};
ghost use Rattle.refusal.specs.Rules.{first_broken};
ghost use Rattle.numbers.specs.Numbers.{SmallPlace};
ghost use Rattle.layout.specs.Chunks.{is_letter, four_letters, needs_info, covered, tracks_fit, info_rules, chunks};
ghost use Rattle.layout.specs.Outlines.{absent as absent_span, spans_of};
ghost use Rattle.layout.specs.Steps.{present_in, put_in, fixed_length_fits, is_other, OthersTo, met_rules, placed_rules, walked};

use crate::{ChunkSpan, ChunkSpans};
use numbers::{byte, number16, number32};
use refusal::{Reason, Refusal, refuse};

// The identifiers of the covered chunks, as stored. They are numbers, because a chunk that is not covered has any other.
const NAME: u32 = 0x4E414D45;

const INFO: u32 = 0x494E464F;

const SONG: u32 = 0x534F4E47;

const INST: u32 = 0x494E5354;

const PATT: u32 = 0x50415454;

const SMPL: u32 = 0x534D504C;

const VENV: u32 = 0x56454E56;

const PENV: u32 = 0x50454E56;

fn is_letter(byte: u8) -> bool
    ensures { result ≡ is_letter byte }
{
    (65 <= byte) & (byte <= 90)
}

// Whether the identifier at a place is four letters.
fn four_letters(m: &[u8], at: usize) -> bool
    requires { at + 8 ≤ length m.now }
    ensures { result ≡ four_letters m.now at }
{
    is_letter(byte(m, at))
        & (is_letter(byte(m, at + 1)) & (is_letter(byte(m, at + 2)) & is_letter(byte(m, at + 3))))
}

// Whether a chunk must come after INFO.
fn needs_info(identifier: u32) -> bool
    ensures { result ≡ needs_info identifier }
{
    (identifier == SONG) | ((identifier == INST) | ((identifier == PATT) | (identifier == SMPL)))
}

// Whether a covered chunk with this identifier has occurred.
fn is_present(p: ChunkSpans, identifier: u32) -> bool
    ensures { result ≡ present_in p identifier }
{
    ((identifier == NAME) & p.name.present)
        | (((identifier == INFO) & p.info.present)
            | (((identifier == SONG) & p.song.present)
                | (((identifier == INST) & p.inst.present)
                    | (((identifier == PATT) & p.patt.present)
                        | (((identifier == SMPL) & p.smpl.present)
                            | (((identifier == VENV) & p.venv.present)
                                | ((identifier == PENV) & p.penv.present)))))))
}

// Whether the chunk's length is right for NAME or INFO; other chunks may have any length.
fn length_fits(identifier: u32, length: u32) -> bool
    ensures { result ≡ fixed_length_fits identifier length }
{
    ((identifier != NAME) | (length == 44)) & ((identifier != INFO) | (length == 10))
}

fn choose(test: bool, new: ChunkSpan, old: ChunkSpan) -> ChunkSpan
    ensures { result ≡ cond test new old }
{
    if test {
        return new;
    }
    old
}

// The spans with that of one more chunk.
fn put(p: ChunkSpans, identifier: u32, span: ChunkSpan) -> ChunkSpans
    ensures { result ≡ put_in p identifier span }
{
    ChunkSpans {
        name: choose(identifier == NAME, span, p.name),
        info: choose(identifier == INFO, span, p.info),
        song: choose(identifier == SONG, span, p.song),
        inst: choose(identifier == INST, span, p.inst),
        patt: choose(identifier == PATT, span, p.patt),
        smpl: choose(identifier == SMPL, span, p.smpl),
        venv: choose(identifier == VENV, span, p.venv),
        penv: choose(identifier == PENV, span, p.penv),
    }
}

fn tracks_fit(tracks: u16) -> bool
    ensures { result ≡ tracks_fit tracks }
{
    (4 <= tracks) & ((tracks <= 254) & (tracks % 2 == 0))
}

// Checks the five numbers of INFO, whose data begin at a place: 10.
fn check_info(m: &[u8], start: usize) -> Result<(), Refusal>
    requires { start < 0x100000000 }
    ensures { result ≡ first_broken (info_rules m.now start) }
{
    if 255 < number16(m, start) {
        return Err(refuse(Reason::InfoRange, start));
    }
    if 255 < number16(m, start + 2) {
        return Err(refuse(Reason::InfoRange, start + 2));
    }
    if 32767 < number16(m, start + 4) {
        return Err(refuse(Reason::InfoRange, start + 4));
    }
    if 1024 < number16(m, start + 6) {
        return Err(refuse(Reason::InfoRange, start + 6));
    }
    if !tracks_fit(number16(m, start + 8)) {
        return Err(refuse(Reason::InfoRange, start + 8));
    }
    Ok(())
}

// Checks a chunk whose header and data are complete: 6, 7, 9, 10.
fn check_met(
    m: &[u8],
    at: usize,
    identifier: u32,
    length: u32,
    p: ChunkSpans,
) -> Result<(), Refusal>
    requires { at < 0x80000000 }
    ensures { result ≡ first_broken (met_rules m.now at identifier length p) }
{
    if is_present(p, identifier) {
        return Err(refuse(Reason::Repeated, at));
    }
    if needs_info(identifier) & !p.info.present {
        return Err(refuse(Reason::BeforeInfo, at));
    }
    if !length_fits(identifier, length) {
        return Err(refuse(Reason::FixedLength, at));
    }
    if identifier == INFO {
        return check_info(m, at + 8);
    }
    Ok(())
}

// Checks the chunk at a place, by the spans of the covered chunks before it: 4, 5, 4, and then the rest.
fn check_chunk(m: &[u8], at: usize, p: ChunkSpans) -> Result<(), Refusal>
    requires { (at < length m.now) × (length m.now ≤ 16777216) }
    ensures { result ≡ first_broken (placed_rules m.now at p) }
{
    if m.len() < at + 8 {
        return Err(refuse(Reason::ChunkCut, at));
    }
    if !four_letters(m, at) {
        return Err(refuse(Reason::Identifier, at));
    }
    let length = number32(m, at + 4);
    if m.len() < at + 8 + length as usize {
        return Err(refuse(Reason::ChunkCut, at));
    }
    check_met(m, at, number32(m, at), length, p)
}

// Whether a chunk is one of the eight covered chunks.
fn is_covered(identifier: u32) -> bool
    ensures { result ≡ covered identifier }
{
    (identifier == NAME)
        | ((identifier == INFO)
            | (needs_info(identifier) | ((identifier == VENV) | (identifier == PENV))))
}

// Whether a complete chunk that is not covered begins at a place.
fn is_other(m: &[u8], at: usize) -> bool
    requires { SmallPlace at }
    ensures { result ≡ is_other m.now at }
{
    if m.len() < at + 8 {
        return false;
    }
    let length = number32(m, at + 4) as usize;
    (at + 8 + length <= m.len()) & (four_letters(m, at) & !is_covered(number32(m, at)))
}

// The place after the chunks from a place on that are not covered.
fn skip_others(m: &[u8], start: usize) -> usize
    requires { SmallPlace start × (length m.now ≤ 16777216) }
    ensures { ((n : ℕ) × OthersTo m.now n start result) × (start ≤ result) }
{
    let mut at = start;
    while is_other(m, at) {
        at = at + 8 + number32(m, at + 4) as usize;
    }
    at
}

// The span of the chunk whose header is at a place.
fn header_span(at: usize, length: u32) -> ChunkSpan
    requires { at < 0x100000000 }
    ensures { result ≡ record { present = true; at = at; length = length } }
{
    ChunkSpan {
        present: true,
        at: at as u32,
        length,
    }
}

fn absent() -> ChunkSpan
    ensures { result ≡ absent_span }
{
    ChunkSpan {
        present: false,
        at: 0,
        length: 0,
    }
}

fn no_spans() -> ChunkSpans
    ensures { result ≡ spans_of [] }
{
    ChunkSpans {
        name: absent(),
        info: absent(),
        song: absent(),
        inst: absent(),
        patt: absent(),
        smpl: absent(),
        venv: absent(),
        penv: absent(),
    }
}

// Walks over the chunks after the header.
pub fn walk_chunks(m: &[u8]) -> Result<ChunkSpans, Refusal>
    requires { length m.now ≤ 16777216 }
    ensures { result ≡ walked (chunks m.now) }
{
    let mut p = no_spans();
    let mut at = skip_others(m, 8);
    while at < m.len() {
        check_chunk(m, at, p)?;
        let length = number32(m, at + 4);
        p = put(p, number32(m, at), header_span(at, length));
        at = skip_others(m, at + 8 + length as usize);
    }
    Ok(p)
}
