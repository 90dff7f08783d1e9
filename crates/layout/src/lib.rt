// The header of a module, and the walk over its chunks: refusals 1 to 10.

#![tactic(auto)]

mod header;
mod walk;

ghost use Rattle.std.specs.Prelude.{◌≡◌};
ghost use Rattle.refusal.specs.Numbers.{IsAnswer};
ghost use Rattle.layout.specs.Outlines.{layout_with, outline, outline_numbers};
ghost use Rattle.layout.specs.Steps.{all_present, outline_with};

use crate::header::check_header;
use crate::walk::walk_chunks;
use numbers::{byte, number16};
use refusal::{Reason, Refusal, refuse};

// The span of a chunk: the place of its header and the length of its data. All fields are 0 if the chunk is absent. It is not an Option,
// because `blocks` promises its answers for the 0 of an absent chunk too.
#[derive(Clone, Copy)]
pub struct ChunkSpan {
    pub present: bool,
    pub at: u32,
    pub length: u32,
}

// The spans of the covered chunks.
#[derive(Clone, Copy)]
pub struct ChunkSpans {
    pub name: ChunkSpan,
    pub info: ChunkSpan,
    pub song: ChunkSpan,
    pub inst: ChunkSpan,
    pub patt: ChunkSpan,
    pub smpl: ChunkSpan,
    pub venv: ChunkSpan,
    pub penv: ChunkSpan,
}

// The layout of a module, known after its chunks are read: header, INFO's numbers, and the spans of the chunks.
#[derive(Clone, Copy)]
pub struct Layout {
    pub version: u8,
    pub revision: u8,
    pub instruments: u16,
    pub samples: u16,
    pub songs: u16,
    pub patterns: u16,
    pub tracks: u16,
    pub spans: ChunkSpans,
}

// Whether the mandatory chunks are present.
fn all_present(p: ChunkSpans) -> bool
    ensures { result ≡ all_present p }
{
    p.info.present & (p.song.present & (p.inst.present & (p.patt.present & p.smpl.present)))
}

// The layout, by the spans of the chunks.
fn layout_with(m: &[u8], p: ChunkSpans) -> Layout
    ensures { result ≡ layout_with m.now p }
{
    let info = p.info.at as usize;
    Layout {
        version: byte(m, 4),
        revision: byte(m, 5),
        instruments: number16(m, info + 8),
        samples: number16(m, info + 10),
        songs: number16(m, info + 12),
        patterns: number16(m, info + 14),
        tracks: number16(m, info + 16),
        spans: p,
    }
}

// The outline after the chunks are read: 8.
fn with_mandatory(m: &[u8], p: ChunkSpans) -> Result<Layout, Refusal>
    ensures { result ≡ outline_with m.now p }
{
    if !all_present(p) {
        return Err(refuse(Reason::Missing, m.len()));
    }
    Ok(layout_with(m, p))
}

// The layout of a module: 1, 2, 3; then chunk by chunk 4, 5, 4, 6, 7, 9, 10; then 8.
pub fn find(m: &[u8]) -> Result<Layout, Refusal>
    ensures { IsAnswer outline_numbers result (outline m.now) }
{
    check_header(m)?;
    let p = walk_chunks(m)?;
    with_mandatory(m, p)
}
