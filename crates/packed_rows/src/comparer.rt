// Comparing the patterns that two accepted streams hold, a row at a time. Only the groups of eight tracks that an entry of either row
// belongs to are compared, and cleared afterwards, so that a row takes time for its entries and not for its tracks.
ghost use Rattle.std.specs.Prelude.{◌≡◌, true, ◌+◌, ◌-◌, ◌*◌, ◌/◌, ◌<◌, ◌≤◌, length, get_or, set, replicate};
ghost use Rattle.differences.specs.Differences.{entries_listed};
ghost use Rattle.packed_rows.specs.Stream.{read_stream};
ghost use Rattle.packed_rows.specs.Answers.{verdict_of_reading};
ghost use Rattle.packed_rows.specs.Comparing.{cell_differences, stream_differences};
ghost use Rattle.packed_rows.specs.Steps.{cell_at};
ghost use Rattle.packed_rows.specs.ComparingSteps.{tracks_differences, SmallCount, ZerosBetween, cleared_between, AllMarked};

use crate::reader::{carry_row, mark_row};
use differences::{Difference, list};

// Lists the fields in which the cells at a place of two rows differ, after n entries, and returns their number.
fn list_cell(
    a: &[u8],
    b: &[u8],
    at: usize,
    pattern: u16,
    row: u16,
    track: u16,
    n: usize,
    out: &mut [u8],
) -> usize
    requires { (at + 6 ≤ length a.now) × (at + 6 ≤ length b.now) × SmallCount n }
    ensures { (result ≡ length (cell_differences pattern row track (cell_at a.now at) (cell_at b.now at))) × (result ≤ 6)
        × (out.new
        ≡ entries_listed (cell_differences pattern row track (cell_at a.now at) (cell_at b.now at)) n out.old) }
{
    let mut count: usize = 0;
    for field in 0..6 {
        let d = Difference {
            kind: 8,
            number: pattern,
            row,
            track,
            field: field as u16 + 1,
        };
        count = count + list(a[at + field] != b[at + field], d, n + count, out);
    }
    count
}

// Lists the differences of two rows from one track up to another, both counted from 0, after n entries, and returns their number.
fn list_tracks(
    a: &[u8],
    b: &[u8],
    start: usize,
    end: usize,
    pattern: u16,
    row: u16,
    n: usize,
    out: &mut [u8],
) -> usize
    requires { (start ≤ end) × (end < 255) × (end * 6 ≤ length a.now) × (end * 6 ≤ length b.now) × SmallCount (n + 1524) }
    ensures { (result ≡ length (tracks_differences pattern row a.now b.now (start + 1) (end - start))) × (result ≤ (end - start) * 6)
        × (out.new ≡ entries_listed (tracks_differences pattern row a.now b.now (start + 1) (end - start)) n out.old) }
{
    let mut count: usize = 0;
    for track in start..end {
        let number = track as u16 + 1;
        count = count + list_cell(a, b, track * 6, pattern, row, number, n + count, out);
    }
    count
}

// Lists the differences of a group of eight tracks if it is marked, clears it in both rows and takes the mark away. A group that is not
// marked holds zeros in both.
fn list_group(
    a: &mut [u8],
    b: &mut [u8],
    marks: &mut [u8],
    start: usize,
    end: usize,
    pattern: u16,
    row: u16,
    n: usize,
    out: &mut [u8],
) -> usize
    requires { (start ≤ end) × (end < 255) × (end * 6 ≤ length a.old) × (end * 6 ≤ length b.old) × SmallCount (n + 1524)
        × (length marks.old ≡ 32)
        × (get_or marks.old (start / 8) 0 ≡ 0 → ZerosBetween start end a.old × ZerosBetween start end b.old) }
    ensures { (result ≡ length (tracks_differences pattern row a.old b.old (start + 1) (end - start))) × (result ≤ (end - start) * 6)
        × (out.new ≡ entries_listed (tracks_differences pattern row a.old b.old (start + 1) (end - start)) n out.old)
        × (a.new ≡ cleared_between start end a.old)
        × (b.new ≡ cleared_between start end b.old)
        × (marks.new ≡ set marks.old (start / 8) 0) }
{
    if marks[start / 8] == 0 {
        return 0;
    }
    marks[start / 8] = 0;
    let count = list_tracks(a, b, start, end, pattern, row, n, out);
    a[start * 6..end * 6].fill(0);
    b[start * 6..end * 6].fill(0);
    count
}

// Lists the differences of two rows, after n entries, and returns their number. Both rows are zeros afterwards.
fn list_row(
    empty: bool,
    a: &mut [u8],
    b: &mut [u8],
    marks: &mut [u8],
    tracks: usize,
    pattern: u16,
    row: u16,
    n: usize,
    out: &mut [u8],
) -> usize
    requires { (tracks < 255) × (length a.old ≡ tracks * 6) × (length b.old ≡ tracks * 6) × SmallCount (n + 3048) × (length marks.old ≡ 32)
        × AllMarked marks.old a.old × AllMarked marks.old b.old
        × (empty ≡ true → (a.old ≡ replicate (tracks * 6) 0) × (b.old ≡ replicate (tracks * 6) 0)) }
    ensures { (result ≡ length (tracks_differences pattern row a.old b.old 1 tracks)) × (result ≤ tracks * 6)
        × (out.new ≡ entries_listed (tracks_differences pattern row a.old b.old 1 tracks) n out.old)
        × (a.new ≡ replicate (tracks * 6) 0) × (b.new ≡ replicate (tracks * 6) 0) }
{
    if empty {
        return 0;
    }
    let mut count: usize = 0;
    for group in 0..tracks.div_ceil(8) {
        let start = group * 8;
        let end = (start + 8).min(tracks);
        count = count + list_group(a, b, marks, start, end, pattern, row, n + count, out);
    }
    count
}

// Lists the differences of the patterns that two accepted streams hold, and returns their number. `first` and `second` are room for a row
// of each, and hold zeros.
pub fn list_rows(
    a: &[u8],
    b: &[u8],
    rows: usize,
    tracks: usize,
    pattern: u16,
    first: &mut [u8],
    second: &mut [u8],
    out: &mut [u8],
) -> usize
    requires { (verdict_of_reading (read_stream rows tracks a.now) ≡ Ok tt) × (verdict_of_reading (read_stream rows tracks b.now) ≡ Ok tt)
        × (first.old ≡ replicate (tracks * 6) 0) × (second.old ≡ replicate (tracks * 6) 0) × (rows < 65536) × (tracks < 255) }
    ensures { (result ≡ length (stream_differences a.now b.now rows tracks pattern))
        × (out.new ≡ entries_listed (stream_differences a.now b.now rows tracks pattern) 0 out.old) }
{
    let mut marks = [0u8; 32];
    let mut at: usize = 0;
    let mut to: usize = 0;
    let mut count: usize = 0;
    for row in 0..rows {
        let empty = (a[at] == 0) & (b[to] == 0);
        mark_row(a, at, &mut marks);
        mark_row(b, to, &mut marks);
        at = carry_row(a, at, first);
        to = carry_row(b, to, second);
        count = count
            + list_row(
                empty, first, second, &mut marks, tracks, pattern, row as u16, count, out,
            );
    }
    count
}
