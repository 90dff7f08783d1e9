// The blocks of a chunk: the size and the place of each, and whether they fill their chunk: refusal 11.

#![tactic(auto)]

pub mod stored;

ghost use Rattle.std.specs.Prelude.{◌≡◌, [], ◌∷◌, not, ◌||◌, ◌+◌, ◌*◌, ◌%◌, ◌<◌, IfSome};
ghost use Rattle.std.specs.Iterator.{YieldsFirst, item_count};
ghost use Rattle.numbers.specs.Numbers.{SmallPlace};
ghost use Rattle.refusal.specs.Numbers.{verdict_numbers, IsAnswer};
ghost use Rattle.refusal.specs.Rules.{first_broken, rules_of_each};
ghost use Rattle.blocks.specs.Sizes.{width_of, size_of, first_block, block_at, blocks_of, envelope_count};
ghost use Rattle.blocks.specs.Filling.{data_end, fills as fills_chunk, flags_rules, envelopes_rule, block_rules};
ghost use Rattle.blocks.specs.RecordKinds.{block_kind_of, chunk_of, count_of};
ghost use Rattle.blocks.specs.declared.BlockKind.TheVariants.{Envelope, Sample as SampleBlock};

use crate::stored::{pattern_packed_length, sample_flags, sample_frames, song_length};
use layout::{ChunkSpan, Layout};
use numbers::number16;
use refusal::{Reason, Refusal, refuse};
use std::marker::Model;

// The kind of a block.
#[derive(Clone, Copy)]
pub enum BlockKind {
    Song,
    Instrument,
    Pattern,
    Sample,
    Envelope,
}

// The kind of a record: what a query is about. Both kinds of envelope have one kind of block.
#[derive(Clone, Copy)]
pub enum RecordKind {
    Song,
    Instrument,
    Pattern,
    Sample,
    VolumeEnvelope,
    PanningEnvelope,
}

// The bytes of a frame, by a sample's flags; 0 for flags that no sample has.
pub fn width(flags: u32) -> usize
    ensures { (result ≡ width_of flags) × (result < 5) }
{
    match flags {
        1 => 1,
        2 => 2,
        4 => 4,
        _ => 0,
    }
}

// The size of a song with the given number of entries in its playlist.
fn song_size(entries: u16) -> usize
    ensures { (result ≡ 46 + 2 * entries) × (result < 0x800000000) }
{
    46 + 2 * (entries as usize)
}

// The size of a pattern with the given number of packed bytes.
fn pattern_size(packed: u32) -> usize
    ensures { (result ≡ 6 + packed + packed % 2) × (result < 0x800000000) }
{
    let packed = packed as usize;
    6 + packed + packed % 2
}

// The size of a sample with these flags and frames.
fn sample_size(flags: u32, frames: u32) -> usize
    ensures { (result ≡ 8 + frames * width_of flags) × (result < 0x800000000) }
{
    8 + (frames as usize) * width(flags)
}

// The size of the block at a place. Past the module's end every number counts as 0.
#[tactic(auto, unfolding(crate::specs::Sizes::size_of))]
pub fn size(m: &[u8], kind: BlockKind, at: usize) -> usize
    ensures { (result ≡ size_of kind m.now at) × (result < 0x800000000) }
{
    match kind {
        BlockKind::Song => song_size(song_length(m, at)),
        BlockKind::Instrument => 50,
        BlockKind::Pattern => pattern_size(pattern_packed_length(m, at)),
        BlockKind::Sample => sample_size(sample_flags(m, at), sample_frames(m, at)),
        BlockKind::Envelope => 136,
    }
}

// The place of a chunk's first block.
fn first_block(kind: BlockKind, chunk: ChunkSpan) -> usize
    ensures { (result ≡ first_block kind chunk) × (result < 0x200000000) }
{
    let at = chunk.at as usize;
    match kind {
        BlockKind::Song => at + 8,
        BlockKind::Instrument => at + 8,
        BlockKind::Pattern => at + 8,
        BlockKind::Sample => at + 8,
        BlockKind::Envelope => at + 10,
    }
}

// The place after a chunk's data.
fn data_end(chunk: ChunkSpan) -> usize
    ensures { result ≡ data_end chunk }
{
    (chunk.at as usize) + 8 + (chunk.length as usize)
}

// The place of a block, counted from 0. Each block before it has less than 2 ^ 35 bytes.
pub fn block_at(m: &[u8], kind: BlockKind, chunk: ChunkSpan, i: u16) -> usize
    ensures { (result ≡ block_at m.now kind chunk i) × (result < 0x200000000 + i * 0x800000000) }
{
    let mut at = first_block(kind, chunk);
    for _ in 0..i {
        at += size(m, kind, at);
    }
    at
}

// The places of the blocks of a chunk, in order. In contracts it is the list of the places that are still to come.
#[derive(Drop)]
pub struct BlockPlaces<'a> {
    module: &'a [u8],
    kind: BlockKind,
    at: usize,
    left: u16,
}

impl<'a> Model for BlockPlaces<'a> {
    ghost use Rattle.std.specs.Prelude.{ℕ, List, ◌+◌, ◌*◌, ◌<◌};
    ghost use Rattle.blocks.specs.Sizes.{places_from, size_of};

    ghost Value = { List ℕ };

    ghost view = { λ p. places_from (size_of p.kind p.module.now) p.left p.at };

    // No place wraps, since a block has less than 2 ^ 35 bytes.
    ghost invariant = { λ p. p.at + p.left * 0x800000000 < 0x10000000000000 };
}

impl<'a> Iterator for BlockPlaces<'a> {
    type Item = usize;

    // Each call gives the first of the places that are still to come. Every place is small.
    ghost next_gives = { λ s r t. YieldsFirst (λ rest. rest) s r t × IfSome r SmallPlace };

    ghost remaining = { item_count (λ rest. rest) };

    fn next(&mut self) -> Option<usize> {
        if self.left == 0 {
            return None;
        }
        let at = self.at;
        self.at += size(self.module, self.kind, at);
        self.left -= 1;
        Some(at)
    }
}

// The places of the given number of blocks of a chunk.
pub fn places(m: &[u8], kind: BlockKind, chunk: ChunkSpan, count: u16) -> BlockPlaces<'_>
    ensures { result ≡ blocks_of m.now kind chunk count }
{
    BlockPlaces {
        module: m,
        kind,
        at: first_block(kind, chunk),
        left: count,
    }
}

// Whether the given number of blocks fill a chunk exactly.
fn fills(m: &[u8], kind: BlockKind, chunk: ChunkSpan, count: u16) -> bool
    ensures { result ≡ fills_chunk m.now kind chunk count }
{
    let end = data_end(chunk);
    let mut at = first_block(kind, chunk);
    for _ in 0..count {
        if end <= at {
            return false;
        }
        at += size(m, kind, at);
    }
    at == end
}

// The number of envelopes of a chunk; 0 if there is no chunk.
pub fn envelope_count(m: &[u8], chunk: ChunkSpan) -> u16
    ensures { result ≡ envelope_count m.now chunk }
{
    if !chunk.present {
        return 0;
    }
    number16(m, (chunk.at as usize) + 8)
}

// Whether the envelopes fill their chunk, if there is one.
fn envelopes_fill(m: &[u8], chunk: ChunkSpan) -> bool
    ensures { result ≡ (not chunk.present || fills_chunk m.now Envelope chunk (envelope_count m.now chunk)) }
{
    if !chunk.present {
        return true;
    }
    fills(m, BlockKind::Envelope, chunk, envelope_count(m, chunk))
}

// Checks the flags of the samples.
fn check_flags(m: &[u8], chunk: ChunkSpan, count: u16) -> Result<(), Refusal>
    ensures { result ≡ first_broken (rules_of_each (flags_rules m.now chunk) (blocks_of m.now SampleBlock chunk count)) }
{
    for at in places(m, BlockKind::Sample, chunk, count) {
        if width(sample_flags(m, at)) == 0 {
            return Err(refuse(Reason::Blocks, chunk.at as usize));
        }
    }
    Ok(())
}

// Checks VENV and PENV.
fn check_envelopes(m: &[u8], venv: ChunkSpan, penv: ChunkSpan) -> Result<(), Refusal>
    ensures { result ≡ first_broken (envelopes_rule m.now venv ∷ envelopes_rule m.now penv ∷ []) }
{
    if !envelopes_fill(m, venv) {
        return Err(refuse(Reason::Blocks, venv.at as usize));
    }
    if !envelopes_fill(m, penv) {
        return Err(refuse(Reason::Blocks, penv.at as usize));
    }
    Ok(())
}

// Checks that the blocks fill their chunks: 11 for SONG, INST, PATT, SMPL, VENV, PENV.
pub fn check(m: &[u8], l: Layout) -> Result<(), Refusal>
    ensures { IsAnswer verdict_numbers result (first_broken (block_rules m.now l)) }
{
    let p = l.spans;
    if !fills(m, BlockKind::Song, p.song, l.songs) {
        return Err(refuse(Reason::Blocks, p.song.at as usize));
    }
    if !fills(m, BlockKind::Instrument, p.inst, l.instruments) {
        return Err(refuse(Reason::Blocks, p.inst.at as usize));
    }
    if !fills(m, BlockKind::Pattern, p.patt, l.patterns) {
        return Err(refuse(Reason::Blocks, p.patt.at as usize));
    }
    if !fills(m, BlockKind::Sample, p.smpl, l.samples) {
        return Err(refuse(Reason::Blocks, p.smpl.at as usize));
    }
    check_flags(m, p.smpl, l.samples)?;
    check_envelopes(m, p.venv, p.penv)
}

impl From<RecordKind> for BlockKind {
    // The block kind of a record kind.
    ghost from_gives = { λ kind given. given ≡ block_kind_of kind };

    fn from(kind: RecordKind) -> BlockKind {
        match kind {
            RecordKind::Song => BlockKind::Song,
            RecordKind::Instrument => BlockKind::Instrument,
            RecordKind::Pattern => BlockKind::Pattern,
            RecordKind::Sample => BlockKind::Sample,
            RecordKind::VolumeEnvelope => BlockKind::Envelope,
            RecordKind::PanningEnvelope => BlockKind::Envelope,
        }
    }
}

// The span of the chunk that holds the blocks of a record kind.
pub fn chunk_of(l: Layout, kind: RecordKind) -> ChunkSpan
    ensures { result ≡ chunk_of l kind }
{
    let p = l.spans;
    match kind {
        RecordKind::Song => p.song,
        RecordKind::Instrument => p.inst,
        RecordKind::Pattern => p.patt,
        RecordKind::Sample => p.smpl,
        RecordKind::VolumeEnvelope => p.venv,
        RecordKind::PanningEnvelope => p.penv,
    }
}

// The number of records of a kind.
pub fn count_of(m: &[u8], l: Layout, kind: RecordKind) -> u16
    ensures { result ≡ count_of m.now l kind }
{
    match kind {
        RecordKind::Song => l.songs,
        RecordKind::Instrument => l.instruments,
        RecordKind::Pattern => l.patterns,
        RecordKind::Sample => l.samples,
        RecordKind::VolumeEnvelope => envelope_count(m, l.spans.venv),
        RecordKind::PanningEnvelope => envelope_count(m, l.spans.penv),
    }
}
