// Writing packed rows: the packed length, and the entries of a row.
ghost use Rattle.std.specs.Prelude.{◌≡◌, ◌++◌, ◌+◌, ◌*◌, ◌<◌, ◌≤◌, length, get_or, take};
ghost use Rattle.cells.specs.Cells.{groups_of, row_of, rows_of, non_zeros, non_empty, non_empty_cells};
ghost use Rattle.packed_rows.specs.Entries.{row_stream};
ghost use Rattle.packed_rows.specs.Packer.{packed_entry, packed_entries, packed_stream, packed_length};
ghost use Rattle.packed_rows.specs.Steps.{filled_tracks, one_if, cell_at, TracksInside, entries_at};

// 1 if a byte is not 0, else 0.
fn one_if(b: u8) -> u8
    ensures { (result ≡ one_if b) × (result < 2) }
{
    u8::from(b != 0)
}

// The number of bytes that are not 0, of at most 255.
fn count_few(bytes: &[u8]) -> u8
    requires { length bytes.now < 256 }
    ensures { result ≡ length (non_zeros bytes.now) }
{
    let mut count: u8 = 0;
    for b in bytes {
        count = count + one_if(*b);
    }
    count
}

// The number of bytes that are not 0. Each block of bytes is counted in a u8.
fn non_zero_bytes(bytes: &[u8]) -> usize
    ensures { result ≡ length (non_zeros bytes.now) }
{
    let (blocks, rest) = bytes.as_chunks::<192>();
    let mut count: usize = 0;
    for block in blocks {
        count = count + usize::from(count_few(block));
    }
    count + usize::from(count_few(rest))
}

// Four bytes as one number.
fn quad(bytes: &[u8], at: usize) -> usize
    requires { at + 4 ≤ length bytes.now }
    ensures { (result ≡ get_or bytes.now at 0 + 256 * get_or bytes.now (at + 1) 0
        + 65536 * get_or bytes.now (at + 2) 0 + 16777216 * get_or bytes.now (at + 3) 0)
        × (result < 4294967296) }
{
    usize::from(bytes[at])
        + 256 * usize::from(bytes[at + 1])
        + 65536 * usize::from(bytes[at + 2])
        + 16777216 * usize::from(bytes[at + 3])
}

// Whether the cell at `at` is non-empty: its first four fields and its last four, two of which are in both.
fn filled(cells: &[u8], at: usize) -> bool
    requires { at + 6 ≤ length cells.now }
    ensures { result ≡ non_empty (cell_at cells.now at) }
{
    quad(cells, at) + quad(cells, at + 2) != 0
}

// The number of non-empty cells.
fn filled_cells(cells: &[u8], n: usize) -> usize
    requires { length cells.now ≡ n * 6 }
    ensures { (result ≡ non_empty_cells (groups_of n 6 cells.now)) × (result ≤ n) }
{
    let mut count: usize = 0;
    for cell in 0..n {
        count = count + filled(cells, cell * 6) as usize;
    }
    count
}

// The packed length of a pattern.
pub fn packed_length(cells: &[u8], rows: usize, tracks: usize) -> usize
    requires { (length cells.now ≡ rows * (tracks * 6)) × (rows < 65536) × (tracks < 255) }
    ensures { result ≡ packed_length (rows_of rows tracks cells.now) }
{
    rows + 2 * filled_cells(cells, rows * tracks) + non_zero_bytes(cells)
}

// Lists the tracks of a row whose cells are non-empty, counted from 0, and returns their number.
fn list_filled(row: &[u8], tracks: usize, list: &mut [u8]) -> usize
    requires { (length row.now ≡ tracks * 6) × (tracks < 255) × (tracks ≤ length list.old) }
    ensures { (take result list.new ≡ filled_tracks 0 (row_of tracks row.now)) × (result ≤ tracks) }
{
    let mut n: usize = 0;
    for track in 0..tracks {
        list[n] = track as u8;
        n = n + filled(row, track * 6) as usize;
    }
    n
}

// The mask that names the fields of the cell at `at` that are not 0.
fn mask_of(cells: &[u8], at: usize) -> u8
    requires { at + 6 ≤ length cells.now }
    ensures { result ≡ (packed_entry 0 (cell_at cells.now at)).mask }
{
    one_if(cells[at])
        + 2 * (one_if(cells[at + 1])
            + 2 * (one_if(cells[at + 2])
                + 2 * (one_if(cells[at + 3])
                    + 2 * (one_if(cells[at + 4]) + 2 * one_if(cells[at + 5])))))
}

// Writes the fields of the cell at `from` that are not 0 to `to`, and returns the place after them. The byte at that place may be changed
// too.
fn write_fields(cells: &[u8], from: usize, out: &mut [u8], to: usize) -> usize
    requires { (from + 6 ≤ length cells.now) × (to + length (non_zeros (cell_at cells.now from)) < length out.old) }
    ensures { (result ≡ to + length (non_zeros (cell_at cells.now from)))
        × (take result out.new ≡ take to out.old ++ non_zeros (cell_at cells.now from)) }
{
    let mut at = to;
    for field in 0..6 {
        let value = cells[from + field];
        out[at] = value;
        at = at + usize::from(one_if(value));
    }
    at
}

// Writes the entries of the listed tracks of a row to `to`, and returns the place after them. The byte at that place may be changed too.
fn write_entries(row: &[u8], listed: &[u8], out: &mut [u8], to: usize) -> usize
    requires { (length row.now < 1530) × TracksInside row.now listed.now
        × (to + length (entries_at row.now listed.now) < length out.old) }
    ensures { (result ≡ to + length (entries_at row.now listed.now))
        × (take result out.new ≡ take to out.old ++ entries_at row.now listed.now) }
{
    let mut at = to;
    for track in listed {
        let from = usize::from(*track) * 6;
        out[at] = *track + 1;
        out[at + 1] = mask_of(row, from);
        at = write_fields(row, from, out, at + 2);
    }
    at
}

// Writes the packer's entries for a row and the row end to `to`, and returns the place after them.
pub fn write_row(row: &[u8], tracks: usize, list: &mut [u8], out: &mut [u8], to: usize) -> usize
    requires { (length row.now ≡ tracks * 6) × (tracks < 255) × (tracks ≤ length list.old)
        × (to + length (row_stream (packed_entries (row_of tracks row.now))) ≤ length out.old) }
    ensures { (result ≡ to + length (row_stream (packed_entries (row_of tracks row.now))))
        × (take result out.new ≡ take to out.old ++ row_stream (packed_entries (row_of tracks row.now))) }
{
    let n = list_filled(row, tracks, list);
    let end = write_entries(row, &list[..n], out, to);
    out[end] = 0;
    end + 1
}

// Writes the packer's stream of a pattern into an output of exactly its length.
pub fn write_rows(cells: &[u8], rows: usize, tracks: usize, out: &mut [u8])
    requires { (length cells.now ≡ rows * (tracks * 6)) × (tracks < 255) × (length out.old ≡ length (packed_stream (rows_of rows tracks cells.now))) }
    ensures { out.new ≡ packed_stream (rows_of rows tracks cells.now) }
{
    let mut list = [0u8; 256];
    let width = tracks * 6;
    let mut at: usize = 0;
    for row in 0..rows {
        let from = row * width;
        at = write_row(&cells[from..from + width], tracks, &mut list, out, at);
    }
}
