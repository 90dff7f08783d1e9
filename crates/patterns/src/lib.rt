// Patterns: rows, one cell, and the whole pattern unpacked. Each query gives the module's own refusal, then 18, then 17. Only the contracts
// of `packed_rows` are used.

#![tactic(auto)]

ghost use Rattle.std.specs.Prelude.{◌≡◌, length};
ghost use Rattle.refusal.specs.Numbers.{IsAnswer};
ghost use Rattle.packed_rows.specs.Answers.{cell_numbers};
ghost use Rattle.patterns.specs.Shown.{no_rows, rows_answer, cell_in, cell_answer, cells_in, cells_output_in, cells_answer, cells_output};

use blocks::RecordKind;
use blocks::stored::{packed_bytes, pattern_rows};
use cells::Cell;
use queries::{Block, find};
use refusal::{LengthAnswer, Outcome, Refusal};

// The number of rows of a pattern.
#[repr(C)]
#[derive(Clone, Copy)]
pub struct RowsAnswer {
    pub outcome: Outcome,
    pub rows: u16,
}

fn no_rows(r: Refusal) -> RowsAnswer
    ensures { result ≡ no_rows r }
{
    RowsAnswer {
        outcome: Outcome::from(Err(r)),
        rows: 0,
    }
}

// The number of rows of a pattern; patterns are counted from 0.
pub fn rows(m: &[u8], pattern: usize) -> RowsAnswer
    ensures { result ≡ rows_answer m.now pattern }
{
    match find(m, RecordKind::Pattern, pattern) {
        Ok(b) => RowsAnswer {
            outcome: Outcome::from(Ok(())),
            rows: pattern_rows(m, b.at),
        },
        Err(r) => no_rows(r),
    }
}

// A cell of the pattern whose block is given.
fn cell_in(m: &[u8], b: Block, row: usize, track: usize) -> Result<Cell, Refusal>
    ensures { result ≡ cell_in m.now b row track }
{
    let rows = pattern_rows(m, b.at) as usize;
    packed_rows::cell(packed_bytes(m, b.at), rows, b.tracks as usize, row, track)
}

// A cell of a pattern: pattern and row counted from 0, track from 1.
pub fn cell(m: &[u8], pattern: usize, row: usize, track: usize) -> Result<Cell, Refusal>
    ensures { IsAnswer cell_numbers result (cell_answer m.now pattern row track) }
{
    let b = find(m, RecordKind::Pattern, pattern)?;
    cell_in(m, b, row, track)
}

// Unpacks the pattern whose block is given.
fn unpack_in(m: &[u8], b: Block, out: &mut [u8]) -> LengthAnswer
    ensures { (result ≡ cells_in m.now b (length out.old))
        × (out.new ≡ cells_output_in m.now b out.old) }
{
    let rows = pattern_rows(m, b.at) as usize;
    LengthAnswer::from(packed_rows::unpack(packed_bytes(m, b.at), rows, b.tracks as usize, out))
}

// Unpacks a pattern, row by row, tracks ascending, six bytes for each cell.
pub fn unpack(m: &[u8], pattern: usize, out: &mut [u8]) -> LengthAnswer
    ensures { (result ≡ cells_answer m.now pattern (length out.old))
        × (out.new ≡ cells_output m.now pattern out.old) }
{
    match find(m, RecordKind::Pattern, pattern) {
        Ok(b) => unpack_in(m, b, out),
        Err(r) => LengthAnswer::from(Err(r)),
    }
}
