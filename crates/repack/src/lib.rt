// Repacking a whole module: the streams in PATT are replaced by the packer's, with the lengths that change with them; all other bytes are
// unchanged. Only the promises of `packed_rows` are used about packed rows. The module is read in place, and no memory is needed beyond one
// row.

#![tactic(auto)]

ghost use Rattle.std.specs.Prelude.{◌≡◌, ◌++◌, ◌+◌, ◌<◌, ◌≤◌, length, drop};
ghost use Rattle.blocks.specs.StoredFields.{pattern_packed_length};
ghost use Rattle.blocks.specs.Sizes.{first_block};
ghost use Rattle.blocks.specs.declared.BlockKind.TheVariants.{Pattern};
ghost use Rattle.module.specs.Streams.{stream_verdict};
ghost use Rattle.module.specs.Verdicts.{opened};
ghost use Rattle.module.specs.Outputs.{answer_opened, output_opened};
ghost use Rattle.repack.specs.Repacked.{repacked_stream, repacked_block, repacked_module, repack_answer, repack_output};
ghost use Rattle.repack.specs.Steps.{rewritten_blocks, rewritten_front, replaced, PatternsIn};

use blocks::stored::{packed_bytes, pattern_rows};
use blocks::{BlockKind, block_at, size};
use layout::{ChunkSpan, Layout};
use numbers::{part, put32};
use refusal::{LengthAnswer, Reason, refuse};

// Writes the packer's stream of the pattern at a place to the front of the output if that has room for it. Returns the stream's length,
// also if there is no room.
fn repack_stream(m: &[u8], tracks: u16, at: usize, out: &mut [u8]) -> usize
    requires { stream_verdict m.now tracks at ≡ Ok tt }
    ensures { (result ≡ length (repacked_stream m.now tracks at))
        × (result ≤ pattern_packed_length m.now at) × (result < 0x100000000)
        × (result ≤ length out.old → out.new ≡ repacked_stream m.now tracks at ++ drop result out.old) }
{
    let rows = pattern_rows(m, at) as usize;
    match packed_rows::repack(packed_bytes(m, at), rows, tracks as usize, out) {
        Ok(n) => n,
        Err(r) => r.place,
    }
}

// The length of a pattern's rewritten block.
fn block_length(m: &[u8], tracks: u16, at: usize) -> usize
    requires { (at + 6 ≤ length m.now) × (stream_verdict m.now tracks at ≡ Ok tt) }
    ensures { result ≡ length (repacked_block m.now tracks at) }
{
    let mut none = [0u8; 0];
    let n = repack_stream(m, tracks, at, &mut none);
    6 + n + n % 2
}

// The length of PATT's rewritten data.
fn data_length(m: &[u8], chunk: ChunkSpan, patterns: u16, tracks: u16) -> usize
    requires { PatternsIn m.now chunk patterns tracks }
    ensures { result ≡ length (rewritten_blocks m.now tracks patterns (first_block Pattern chunk)) }
{
    let mut at = block_at(m, BlockKind::Pattern, chunk, 0);
    let mut length: usize = 0;
    for _ in 0..patterns {
        length = length + block_length(m, tracks, at);
        at = at + size(m, BlockKind::Pattern, at);
    }
    length
}

// Writes a pattern's rewritten block to the front of an output that has room for it, and returns its length.
fn write_block(m: &[u8], tracks: u16, at: usize, out: &mut [u8]) -> usize
    requires { (at + 6 ≤ length m.now) × (stream_verdict m.now tracks at ≡ Ok tt) × (length (repacked_block m.now tracks at) ≤ length out.old) }
    ensures { (result ≡ length (repacked_block m.now tracks at))
        × (out.new ≡ repacked_block m.now tracks at ++ drop result out.old) }
{
    byte_copy::copy(part(m, at, 2), out);
    let n = repack_stream(m, tracks, at, &mut out[6..]);
    put32(n as u32, 2, out);
    let end = 6 + n;
    if n % 2 == 0 {
        return end;
    }
    out[end] = 0;
    end + 1
}

// Writes PATT's rewritten data to the front of an output that has room for them, and returns their length.
fn write_data(m: &[u8], chunk: ChunkSpan, patterns: u16, tracks: u16, out: &mut [u8]) -> usize
    requires { PatternsIn m.now chunk patterns tracks × (length (rewritten_blocks m.now tracks patterns (first_block Pattern chunk)) ≤ length out.old) }
    ensures { (result ≡ length (rewritten_blocks m.now tracks patterns (first_block Pattern chunk)))
        × (out.new ≡ rewritten_blocks m.now tracks patterns (first_block Pattern chunk) ++ drop result out.old) }
{
    let mut at = block_at(m, BlockKind::Pattern, chunk, 0);
    let mut to: usize = 0;
    for _ in 0..patterns {
        to = to + write_block(m, tracks, at, &mut out[to..]);
        at = at + size(m, BlockKind::Pattern, at);
    }
    to
}

// Writes the module up to PATT's end, with PATT's rewritten data, to the front of an output that has room for it, and returns the place
// after it. The data are written before their length, which is not known until then.
fn write_front(m: &[u8], chunk: ChunkSpan, patterns: u16, tracks: u16, out: &mut [u8]) -> usize
    requires { PatternsIn m.now chunk patterns tracks
        × (length (rewritten_front m.now chunk (rewritten_blocks m.now tracks patterns (first_block Pattern chunk))) ≤ length out.old) }
    ensures { (result ≡ length (rewritten_front m.now chunk (rewritten_blocks m.now tracks patterns (first_block Pattern chunk))))
        × (out.new
        ≡ rewritten_front m.now chunk (rewritten_blocks m.now tracks patterns (first_block Pattern chunk)) ++ drop result out.old) }
{
    let front = (chunk.at as usize) + 4;
    let start = front + 4;
    byte_copy::copy(&m[..front], out);
    let rewritten = write_data(m, chunk, patterns, tracks, &mut out[start..]);
    put32(rewritten as u32, front, out);
    start + rewritten
}

// Writes the module with PATT's rewritten data to the front of an output that has room for it, and returns its length.
fn write_module(m: &[u8], chunk: ChunkSpan, patterns: u16, tracks: u16, out: &mut [u8]) -> usize
    requires { PatternsIn m.now chunk patterns tracks
        × (length (replaced m.now chunk (rewritten_blocks m.now tracks patterns (first_block Pattern chunk))) ≤ length out.old) }
    ensures { (result ≡ length (replaced m.now chunk (rewritten_blocks m.now tracks patterns (first_block Pattern chunk))))
        × (out.new
        ≡ replaced m.now chunk (rewritten_blocks m.now tracks patterns (first_block Pattern chunk)) ++ drop result out.old) }
{
    let end = write_front(m, chunk, patterns, tracks, out);
    let rest = (chunk.at as usize) + 8 + (chunk.length as usize);
    byte_copy::copy(&m[rest..], &mut out[end..]);
    end + (m.len() - rest)
}

// The length that an output with this room needs. If there is room for the module itself, its own length is returned, which is no less than
// that of the repacked module, so the streams are not read to count. Otherwise it is the length of the repacked module.
fn room_needed(m: &[u8], chunk: ChunkSpan, patterns: u16, tracks: u16, room: usize) -> usize
    requires { PatternsIn m.now chunk patterns tracks }
    ensures { (length (replaced m.now chunk (rewritten_blocks m.now tracks patterns (first_block Pattern chunk))) ≤ result)
        × (room < result → result ≡ length (replaced m.now chunk (rewritten_blocks m.now tracks patterns (first_block Pattern chunk)))) }
{
    if m.len() <= room {
        return m.len();
    }
    let rewritten = data_length(m, chunk, patterns, tracks);
    m.len() - (chunk.length as usize) + rewritten
}

// Repacks an accepted module. The only refusal is 17.
fn repack_opened(m: &[u8], l: Layout, out: &mut [u8]) -> LengthAnswer
    requires { opened m.now ≡ Ok l }
    ensures { (result ≡ answer_opened (repacked_module m.now) (length out.old) (Ok l))
        × (out.new ≡ output_opened (repacked_module m.now) out.old (Ok l)) }
{
    let p = l.spans;
    let chunk = p.patt;
    let needed = room_needed(m, chunk, l.patterns, l.tracks, out.len());
    if out.len() < needed {
        return LengthAnswer::from(Err(refuse(Reason::Room, needed)));
    }
    LengthAnswer::from(Ok(write_module(m, chunk, l.patterns, l.tracks, out)))
}

// Repacks a module. The refusals are the module's own, then 17.
pub fn repack(m: &[u8], out: &mut [u8]) -> LengthAnswer
    ensures { (result ≡ repack_answer m.now (length out.old)) × (out.new ≡ repack_output m.now out.old) }
{
    match module::open(m) {
        Ok(l) => repack_opened(m, l, out),
        Err(r) => LengthAnswer::from(Err(r)),
    }
}
