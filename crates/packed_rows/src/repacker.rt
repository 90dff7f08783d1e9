// The packer's stream of the pattern that an accepted stream holds, a row at a time.
ghost use Rattle.std.specs.Prelude.{◌≡◌, ◌*◌, ◌<◌, length};
ghost use Rattle.packed_rows.specs.Stream.{read_stream};
ghost use Rattle.packed_rows.specs.Packer.{packed_stream, packed_length};
ghost use Rattle.packed_rows.specs.Answers.{verdict_of_reading};
ghost use Rattle.packed_rows.specs.Steps.{rows_read};

use crate::packer::{packed_length, write_row};
use crate::reader::load_row;

// The packed length of the pattern that an accepted stream holds. `line` is room for a row.
pub fn repacked_length(s: &[u8], rows: usize, tracks: usize, line: &mut [u8]) -> usize
    requires { (verdict_of_reading (read_stream rows tracks s.now) ≡ Ok tt) × (length line.old ≡ tracks * 6) × (rows < 65536) × (tracks < 255) }
    ensures { result ≡ packed_length (rows_read s.now rows tracks) }
{
    let mut at: usize = 0;
    let mut length: usize = 0;
    for _ in 0..rows {
        at = load_row(s, at, line);
        length = length + packed_length(line, 1, tracks);
    }
    length
}

// Writes the packer's stream of the pattern that an accepted stream holds into an output of exactly its length.
pub fn repack_rows(s: &[u8], rows: usize, tracks: usize, line: &mut [u8], out: &mut [u8])
    requires { (verdict_of_reading (read_stream rows tracks s.now) ≡ Ok tt) × (length line.old ≡ tracks * 6)
        × (tracks < 255) × (length out.old ≡ packed_length (rows_read s.now rows tracks)) }
    ensures { out.new ≡ packed_stream (rows_read s.now rows tracks) }
{
    let mut list = [0u8; 256];
    let mut at: usize = 0;
    let mut to: usize = 0;
    for _ in 0..rows {
        at = load_row(s, at, line);
        to = write_row(line, tracks, &mut list, out, to);
    }
}
