// Running the cases, one after the other.
ghost use Rattle.std.specs.Prelude.{◌≤◌, length};

use cells::Cell;
use conformance_text::answers::{cell_values, print_cell_answer, print_outcome, print_output};
use conformance_text::heads::{eight_bytes, four_bytes};
use conformance_text::text::{fill, print_numbers};
use refusal::{LengthAnswer, Outcome};

fn print_check(stream: &[u8], rows: usize, tracks: usize, line: &mut [u8]) {
    let verdict = packed_rows::check(stream, rows, tracks);
    print_outcome(b"check", Outcome::from(verdict), line);
}

fn print_unpack(stream: &[u8], rows: usize, tracks: usize, out: &mut [u8], line: &mut [u8]) {
    fill(out);
    let a = LengthAnswer::from(packed_rows::unpack(stream, rows, tracks, out));
    print_output(b"unpack", a, out, line);
}

fn print_repack(stream: &[u8], rows: usize, tracks: usize, out: &mut [u8], line: &mut [u8]) {
    fill(out);
    let a = LengthAnswer::from(packed_rows::repack(stream, rows, tracks, out));
    print_output(b"repack", a, out, line);
}

fn print_pack(cells: &[u8], rows: usize, tracks: usize, out: &mut [u8], line: &mut [u8]) {
    fill(out);
    let a = LengthAnswer::from(packed_rows::pack(cells, rows, tracks, out));
    print_output(b"pack", a, out, line);
}

fn print_cell(
    stream: &[u8],
    rows: usize,
    tracks: usize,
    row: usize,
    track: usize,
    line: &mut [u8],
) {
    print_cell_answer(packed_rows::cell(stream, rows, tracks, row, track), line);
}

fn print_stream(
    stream: &[u8],
    rows: usize,
    tracks: usize,
    row: usize,
    track: usize,
    out: &mut [u8],
    line: &mut [u8],
) {
    print_check(stream, rows, tracks, line);
    print_unpack(stream, rows, tracks, out, line);
    print_repack(stream, rows, tracks, out, line);
    print_cell(stream, rows, tracks, row, track, line);
}

fn print_shown(cell: [u8; 6], line: &mut [u8]) {
    print_numbers(b"shown", &cell_values(Cell::from(cell)), line);
}

// Each function below takes the input from the first byte of a case on, and returns the length of the case, or 0 if there is no complete
// case.

fn stream_case(s: &[u8], out: &mut [u8], line: &mut [u8]) -> usize
    ensures { result ≤ length s.now }
{
    if s.len() < 41 {
        return 0;
    }
    let length = four_bytes(s, 37);
    if s.len() - 41 < length {
        return 0;
    }
    let end = 41 + length;
    let stream = &s[41..end];
    let rows = eight_bytes(s, 1);
    let tracks = eight_bytes(s, 9);
    let row = eight_bytes(s, 17);
    let track = eight_bytes(s, 25);
    let room = four_bytes(s, 33).min(out.len());
    print_stream(stream, rows, tracks, row, track, &mut out[..room], line);
    end
}

fn cells_case(s: &[u8], out: &mut [u8], line: &mut [u8]) -> usize
    ensures { result ≤ length s.now }
{
    if s.len() < 25 {
        return 0;
    }
    let length = four_bytes(s, 21);
    if s.len() - 25 < length {
        return 0;
    }
    let end = 25 + length;
    let rows = eight_bytes(s, 1);
    let tracks = eight_bytes(s, 9);
    let room = four_bytes(s, 17).min(out.len());
    print_pack(&s[25..end], rows, tracks, &mut out[..room], line);
    end
}

fn shown_case(s: &[u8], line: &mut [u8]) -> usize
    ensures { result ≤ length s.now }
{
    if s.len() < 7 {
        return 0;
    }
    print_shown([s[1], s[2], s[3], s[4], s[5], s[6]], line);
    7
}

fn case(s: &[u8], out: &mut [u8], line: &mut [u8]) -> usize
    ensures { result ≤ length s.now }
{
    if s.len() == 0 {
        return 0;
    }
    match s[0] {
        1 => stream_case(s, out, line),
        2 => cells_case(s, out, line),
        3 => shown_case(s, line),
        _ => 0,
    }
}

// Prints the answers for every case, and returns the number of cases.
pub fn run(s: &[u8], out: &mut [u8], line: &mut [u8]) -> usize {
    let mut at = 0;
    let mut n = 0;
    while at < s.len() {
        let size = case(&s[at..], out, line);
        if size == 0 {
            return n;
        }
        at += size;
        n += 1;
    }
    n
}
