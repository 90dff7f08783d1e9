// Reading packed rows: the row end or entry at a place of a stream, the check, and carrying entries out.
ghost use Rattle.std.specs.Prelude.{◌≡◌, ℕ, ◌+◌, ◌*◌, ◌<◌, ◌≤◌, cond, eqb, length, drop, replicate};
ghost use Rattle.packed_rows.specs.Entries.{bits, count, fields_named};
ghost use Rattle.packed_rows.specs.Stream.{front, read_stream, cells_read};
ghost use Rattle.packed_rows.specs.Answers.{verdict_of_reading};
ghost use Rattle.packed_rows.specs.Steps.{entry_lengths, entry_length, piece_length, front_length, stored_from, stored_at};
ghost use Rattle.packed_rows.specs.Steps.{RowAhead, Carried, Loaded, Skipped, MoreRows, AfterRows};
ghost use Rattle.packed_rows.specs.ComparingSteps.{Marked};

use refusal::{Reason, Refusal, refuse};

// The length in bytes of an entry by bits 0 to 5 of its mask: the track, the mask and the named fields.
const LENGTHS: [u8; 64] = [
    2, 3, 3, 4, 3, 4, 4, 5, 3, 4, 4, 5, 4, 5, 5, 6, 3, 4, 4, 5, 4, 5, 5, 6, 4, 5, 5, 6, 5, 6, 6, 7,
    3, 4, 4, 5, 4, 5, 5, 6, 4, 5, 5, 6, 5, 6, 6, 7, 4, 5, 5, 6, 5, 6, 6, 7, 5, 6, 6, 7, 6, 7, 7, 8,
];

// The length of an entry with this mask. Bits 6 and 7 of the mask are ignored.
fn entry_length(mask: u8, lengths: &[u8]) -> usize
    requires { lengths.now ≡ entry_lengths }
    ensures { (result ≡ entry_length mask) × (result < 9) }
{
    usize::from(lengths[usize::from(mask % 64)])
}

// The length of a row end or an entry that begins with these two bytes.
fn piece_length(track: u8, mask: u8, lengths: &[u8]) -> usize
    requires { lengths.now ≡ entry_lengths }
    ensures { result ≡ piece_length track mask }
{
    if track == 0 {
        1
    } else {
        entry_length(mask, lengths)
    }
}

// The length of the row end or sound entry at `at`; 0 at a fault and at the stream's end.
fn front_length(s: &[u8], at: usize, tracks: usize, lengths: &[u8]) -> usize
    requires { lengths.now ≡ entry_lengths }
    ensures { result ≡ front_length (front tracks (drop at s.now)) }
{
    if s.len() <= at {
        return 0;
    }
    let track = s[at];
    if s.len() - at < 2 {
        if track == 0 {
            return 1;
        }
        return 0;
    }
    let length = piece_length(track, s[at + 1], lengths);
    if tracks < usize::from(track) {
        return 0;
    }
    if s.len() - at < length {
        return 0;
    }
    length
}

// Whether the stream rules hold; if not, where the stream is broken.
pub fn check_stream(s: &[u8], rows: usize, tracks: usize) -> Result<(), Refusal>
    ensures { result ≡ verdict_of_reading (read_stream rows tracks s.now) }
{
    let lengths = LENGTHS;
    let mut left = rows;
    let mut at: usize = 0;
    while 0 < left {
        let length = front_length(s, at, tracks, &lengths);
        if length == 0 {
            return Err(refuse(Reason::Stream, at));
        }
        if s[at] == 0 {
            left = left - 1;
            at = at + length;
        } else {
            at = at + length;
        }
    }
    if at < s.len() {
        return Err(refuse(Reason::Stream, at));
    }
    Ok(())
}

// The first byte if the bit is 1, else the second. A function of its own: an `if` in the loop takes 1.7 times as long to unpack random cells.
fn pick(bit: u8, value: u8, old: u8) -> u8
    ensures { result ≡ cond (eqb bit 1) value old }
{
    if bit == 1 { value } else { old }
}

// Stores the fields that a mask names, out of `n` fields at `to`. Their values are at `from`; the other fields are unchanged. Returns the
// place after the values.
fn store_some(s: &[u8], from: usize, mask: u8, n: usize, out: &mut [u8], to: usize) -> usize
    requires { (from + count (bits n mask) < length s.now) × (to + n ≤ length out.old) }
    ensures { (result ≡ from + count (bits n mask)) × (out.new ≡ stored_from (bits n mask) (drop from s.now) out.old to) }
{
    let mut next = from;
    let mut rest = mask;
    for field in 0..n {
        let bit = rest % 2;
        let value = s[next];
        let old = out[to + field];
        out[to + field] = pick(bit, value, old);
        next = next + usize::from(bit);
        rest = rest / 2;
    }
    next
}

// Stores the fields that a mask names, which are at `from`, in the cell at `to`; the others are unchanged. Most masks name neither command
// 2 nor parameter 2, whatever their upper bits are.
fn store_fields(s: &[u8], from: usize, mask: u8, out: &mut [u8], to: usize)
    requires { (from + fields_named mask < length s.now) × (to + 6 ≤ length out.old) }
    ensures { out.new ≡ stored_at s.now from mask out.old to }
{
    let next = store_some(s, from, mask, 4, out, to);
    let high = mask / 2 / 2 / 2 / 2 % 4;
    if high != 0 {
        store_some(s, next, high, 2, out, to + 4);
    }
}

// Carries out the entries from `start` to the next row end on a row, and returns the place after the row end.
pub fn carry_row(s: &[u8], start: usize, row: &mut [u8]) -> usize
    requires { RowAhead s.now start (length row.old) }
    ensures { Carried s.now start row.old result row.new }
{
    let lengths = LENGTHS;
    let mut at = start;
    while s[at] != 0 {
        let track = usize::from(s[at]);
        let mask = s[at + 1];
        store_fields(s, at + 2, mask, row, (track - 1) * 6);
        at = at + entry_length(mask, &lengths);
    }
    at + 1
}

// Carries out all entries of an accepted stream on an output that holds zeros.
fn carry_rows(s: &[u8], rows: usize, tracks: usize, out: &mut [u8])
    requires { (verdict_of_reading (read_stream rows tracks s.now) ≡ Ok tt) × (out.old ≡ replicate (rows * (tracks * 6)) 0) × (tracks < 256) }
    ensures { out.new ≡ cells_read rows tracks s.now }
{
    let width = tracks * 6;
    let mut at: usize = 0;
    for row in 0..rows {
        let base = row * width;
        at = carry_row(s, at, &mut out[base..base + width]);
    }
}

// Carries out all entries of an accepted stream on an output of exactly the cells' size.
pub fn unpack_rows(s: &[u8], rows: usize, tracks: usize, out: &mut [u8])
    requires { (verdict_of_reading (read_stream rows tracks s.now) ≡ Ok tt) × (length out.old ≡ rows * (tracks * 6)) × (tracks < 256) }
    ensures { out.new ≡ cells_read rows tracks s.now }
{
    out.fill(0);
    carry_rows(s, rows, tracks, out);
}

// Carries out the row at `at` on zeros, and returns the place after its row end.
pub fn load_row(s: &[u8], at: usize, row: &mut [u8]) -> usize
    requires { RowAhead s.now at (length row.old) }
    ensures { Loaded s.now at (length row.old) result row.new }
{
    row.fill(0);
    carry_row(s, at, row)
}

// The place after the row end of the row at `start`.
fn skip_row(s: &[u8], start: usize) -> usize
    requires { (size : ℕ) × RowAhead s.now start size }
    ensures { Skipped s.now start result }
{
    let lengths = LENGTHS;
    let mut at = start;
    while s[at] != 0 {
        at = at + entry_length(s[at + 1], &lengths);
    }
    at + 1
}

// The place after the first `n` rows of an accepted stream that has more rows than that.
pub fn skip_rows(s: &[u8], n: usize) -> usize
    requires { MoreRows s.now n }
    ensures { AfterRows s.now n result }
{
    let mut at: usize = 0;
    for _ in 0..n {
        at = skip_row(s, at);
    }
    at
}

// Marks the groups of eight tracks that the entries of the row at `start` belong to.
pub fn mark_row(s: &[u8], start: usize, marks: &mut [u8])
    requires { ((size : ℕ) × RowAhead s.now start size × (size ≤ 1536)) × (length marks.old ≡ 32) }
    ensures { Marked s.now start marks.old marks.new }
{
    let lengths = LENGTHS;
    let mut at = start;
    while s[at] != 0 {
        let track = usize::from(s[at]);
        marks[(track - 1) / 8] = 1;
        at = at + entry_length(s[at + 1], &lengths);
    }
}
