// Packed rows: check, unpack, pack and repack a stream, compare two streams, read one cell of a stream, and count the fields of a mask.

#![tactic(auto)]

mod comparer;
mod packer;
mod reader;
mod repacker;

ghost use Rattle.std.specs.Prelude.{◌≡◌, length, ◌+◌, ◌*◌, ◌≤◌, ◌<◌, true};
ghost use Rattle.refusal.specs.Numbers.{verdict_numbers, IsAnswer};
ghost use Rattle.refusal.specs.Lengths.{needed_if, output_written, value_numbers};
ghost use Rattle.cells.specs.Cells.{sizes_fit};
ghost use Rattle.cells.specs.Shown.{shown_cell};
ghost use Rattle.packed_rows.specs.Entries.{fields_named};
ghost use Rattle.packed_rows.specs.Stream.{read_stream};
ghost use Rattle.packed_rows.specs.Packer.{packed_length, packed_stream};
ghost use Rattle.packed_rows.specs.Steps.{cell_at, cell_read, rows_read};
ghost use Rattle.packed_rows.specs.Answers.{check_answer, unpack_answer, unpack_output};
ghost use Rattle.packed_rows.specs.Answers.{pack_answer, pack_output, repack_stream_answer, repack_stream_output, cell_there, cell_of};
ghost use Rattle.packed_rows.specs.Answers.{verdict_of_reading, cell_numbers};
ghost use Rattle.packed_rows.specs.Comparing.{compare_streams_answer, compare_streams_output};

use crate::comparer::list_rows;
use crate::packer::{packed_length, write_rows};
use crate::reader::{check_stream, load_row, skip_rows, unpack_rows};
use crate::repacker::{repack_rows, repacked_length};
use cells::Cell;
use refusal::{Reason, Refusal, refuse};

// How many fields a mask names, which is how many bytes follow it: the set bits of its low six.
pub fn fields_named(mask: u8) -> usize
    ensures { result ≡ fields_named mask }
{
    (mask & 63).count_ones() as usize
}

// Whether a pattern may have these rows and tracks.
fn sizes_fit(rows: usize, tracks: usize) -> bool
    ensures { result ≡ sizes_fit rows tracks }
{
    (rows <= 65535) & ((4 <= tracks) & ((tracks <= 254) & (tracks % 2 == 0)))
}

// Whether a pattern with these rows and tracks has this row, counted from 0, and this track, counted from 1.
fn cell_there(rows: usize, tracks: usize, row: usize, track: usize) -> bool
    ensures { result ≡ cell_there rows tracks row track }
{
    (row < rows) & ((1 <= track) & (track <= tracks))
}

// Checks a stream: 16, 15.
pub fn check(stream: &[u8], rows: usize, tracks: usize) -> Result<(), Refusal>
    ensures { IsAnswer verdict_numbers result (check_answer stream.now rows tracks) }
{
    if !sizes_fit(rows, tracks) {
        return Err(refuse(Reason::Sizes, 0));
    }
    check_stream(stream, rows, tracks)
}

// Unpacks a stream: 16, 17, 15.
pub fn unpack(stream: &[u8], rows: usize, tracks: usize, out: &mut [u8]) -> Result<usize, Refusal>
    ensures { IsAnswer value_numbers result (unpack_answer stream.now rows tracks (length out.old))
        × (out.new ≡ unpack_output stream.now rows tracks out.old) }
{
    if !sizes_fit(rows, tracks) {
        return Err(refuse(Reason::Sizes, 0));
    }
    let size = rows * (tracks * 6);
    if out.len() < size {
        return Err(refuse(Reason::Room, size));
    }
    check_stream(stream, rows, tracks)?;
    unpack_rows(stream, rows, tracks, &mut out[..size]);
    Ok(size)
}

// Packs a pattern's cells: 16, 17.
pub fn pack(cells: &[u8], rows: usize, tracks: usize, out: &mut [u8]) -> Result<usize, Refusal>
    ensures { IsAnswer value_numbers result (pack_answer cells.now rows tracks (length out.old))
        × (out.new ≡ pack_output cells.now rows tracks out.old) }
{
    if !sizes_fit(rows, tracks) {
        return Err(refuse(Reason::Sizes, 0));
    }
    if cells.len() != rows * (tracks * 6) {
        return Err(refuse(Reason::Sizes, 0));
    }
    let needed = packed_length(cells, rows, tracks);
    if out.len() < needed {
        return Err(refuse(Reason::Room, needed));
    }
    write_rows(cells, rows, tracks, &mut out[..needed]);
    Ok(needed)
}

// Repacks an accepted stream: 17. `line` is room for a row.
fn repack_accepted(
    stream: &[u8],
    rows: usize,
    tracks: usize,
    line: &mut [u8],
    out: &mut [u8],
) -> Result<usize, Refusal>
    requires { (verdict_of_reading (read_stream rows tracks stream.now) ≡ Ok tt) × (length line.old ≡ tracks * 6) × (rows < 65536) × (tracks < 255) }
    ensures { (result ≡ needed_if (packed_length (rows_read stream.now rows tracks)) (length out.old))
        × (out.new ≡ output_written result (packed_stream (rows_read stream.now rows tracks)) out.old) }
{
    let needed = repacked_length(stream, rows, tracks, line);
    if out.len() < needed {
        return Err(refuse(Reason::Room, needed));
    }
    repack_rows(stream, rows, tracks, line, &mut out[..needed]);
    Ok(needed)
}

// Repacks a stream: 16, 15, 17.
pub fn repack(stream: &[u8], rows: usize, tracks: usize, out: &mut [u8]) -> Result<usize, Refusal>
    ensures { IsAnswer value_numbers result (repack_stream_answer stream.now rows tracks (length out.old))
        × (out.new ≡ repack_stream_output stream.now rows tracks out.old) }
{
    check(stream, rows, tracks)?;
    let mut line = [0u8; 1524];
    let width = tracks * 6;
    repack_accepted(stream, rows, tracks, &mut line[..width], out)
}

// Lists the differences of the patterns that two streams hold, with the given number of their pattern: 16, the first stream's 15, the
// second stream's 15. Entries for which the output has no room are counted and not written.
pub fn compare(
    a: &[u8],
    b: &[u8],
    rows: usize,
    tracks: usize,
    pattern: u16,
    out: &mut [u8],
) -> Result<usize, Refusal>
    ensures { IsAnswer value_numbers result (compare_streams_answer a.now b.now rows tracks pattern)
        × (out.new ≡ compare_streams_output a.now b.now rows tracks pattern out.old) }
{
    check(a, rows, tracks)?;
    check_stream(b, rows, tracks)?;
    let mut first = [0u8; 1524];
    let mut second = [0u8; 1524];
    let width = tracks * 6;
    Ok(list_rows(
        a,
        b,
        rows,
        tracks,
        pattern,
        &mut first[..width],
        &mut second[..width],
        out,
    ))
}

// The shown cell at a place of a row's bytes.
fn shown_at(row: &[u8], at: usize) -> Cell
    requires { at + 6 ≤ length row.now }
    ensures { result ≡ shown_cell (cell_at row.now at) }
{
    Cell::from([
        row[at],
        row[at + 1],
        row[at + 2],
        row[at + 3],
        row[at + 4],
        row[at + 5],
    ])
}

// The cell of an accepted stream at a row, counted from 0, and a track, counted from 1. `line` is room for a row.
fn read_cell(
    stream: &[u8],
    rows: usize,
    tracks: usize,
    row: usize,
    track: usize,
    line: &mut [u8],
) -> Cell
    requires { (verdict_of_reading (read_stream rows tracks stream.now) ≡ Ok tt) × (cell_there rows tracks row track ≡ true)
        × (length line.old ≡ tracks * 6) }
    ensures { result ≡ shown_cell (cell_read stream.now rows tracks row track) }
{
    let at = skip_rows(stream, row);
    load_row(stream, at, line);
    shown_at(line, (track - 1) * 6)
}

// One cell of a stream: 16, 18, 15.
pub fn cell(
    stream: &[u8],
    rows: usize,
    tracks: usize,
    row: usize,
    track: usize,
) -> Result<Cell, Refusal>
    ensures { IsAnswer cell_numbers result (cell_of stream.now rows tracks row track) }
{
    if !sizes_fit(rows, tracks) {
        return Err(refuse(Reason::Sizes, 0));
    }
    if !cell_there(rows, tracks, row, track) {
        return Err(refuse(Reason::NotThere, 0));
    }
    check_stream(stream, rows, tracks)?;
    let mut line = [0u8; 1524];
    let width = tracks * 6;
    Ok(read_cell(stream, rows, tracks, row, track, &mut line[..width]))
}
