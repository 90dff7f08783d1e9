// Running the cases, one after the other.
ghost use Rattle.std.specs.Prelude.{◌≤◌, length};

use crate::compared::print_compared_twice;
use crate::replaced::{Replacement, print_replaced_twice};
use crate::shown::{Asked, print_records};
use conformance_text::answers::{print_outcome, print_output};
use conformance_text::heads::{eight_bytes, four_bytes};
use conformance_text::text::fill;
use refusal::{LengthAnswer, Outcome};

fn print_module(m: &[u8], out: &mut [u8], line: &mut [u8]) {
    let verdict = module::check(m);
    print_outcome(b"module", Outcome::from(verdict), line);
    fill(out);
    let a = LengthAnswer::from(listing_text::lines(m, out));
    print_output(b"lines", a, out, line);
    print_repacked(m, out, line);
}

fn print_repacked(m: &[u8], out: &mut [u8], line: &mut [u8]) {
    fill(out);
    let a = repack::repack(m, out);
    print_output(b"repacked", a, out, line);
}

fn print_records_into(m: &[u8], out: &mut [u8], line: &mut [u8]) {
    fill(out);
    let a = records::all(m, out);
    print_output(b"records", a, out, line);
}

// Prints the answer of the call for all records, with the first n bytes of an output.
fn print_all_records(m: &[u8], n: usize, out: &mut [u8], line: &mut [u8]) {
    let room = n.min(out.len());
    print_records_into(m, &mut out[..room], line);
}

// The same with the room of a case, and with an output 60 bytes longer than the module.
fn print_records_twice(m: &[u8], room: usize, out: &mut [u8], line: &mut [u8]) {
    print_all_records(m, room, out, line);
    print_all_records(m, m.len() + 60, out, line);
}

// Each function below takes the input from the first byte of a case on, and returns the length of the case, or 0 if there is no complete
// case.

fn module_case(s: &[u8], out: &mut [u8], line: &mut [u8]) -> usize
    ensures { result ≤ length s.now }
{
    if s.len() < 9 {
        return 0;
    }
    let length = four_bytes(s, 5);
    if s.len() - 9 < length {
        return 0;
    }
    let end = 9 + length;
    let m = &s[9..end];
    let room = four_bytes(s, 1).min(out.len());
    print_module(m, &mut out[..room], line);
    let whole = length.min(out.len());
    print_repacked(m, &mut out[..whole], line);
    print_records_twice(m, room, out, line);
    end
}

// The indices of a case of records.
fn asked(s: &[u8]) -> Asked {
    Asked {
        song: eight_bytes(s, 1),
        entry: eight_bytes(s, 9),
        instrument: eight_bytes(s, 17),
        envelope: eight_bytes(s, 25),
        pattern: eight_bytes(s, 33),
        row: eight_bytes(s, 41),
        track: eight_bytes(s, 49),
        sample: eight_bytes(s, 57),
        frame: eight_bytes(s, 65),
    }
}

fn records_case(s: &[u8], out: &mut [u8], line: &mut [u8]) -> usize
    ensures { result ≤ length s.now }
{
    if s.len() < 81 {
        return 0;
    }
    let length = four_bytes(s, 77);
    if s.len() - 81 < length {
        return 0;
    }
    let end = 81 + length;
    let a = asked(s);
    let room = four_bytes(s, 73).min(out.len());
    print_records(&s[81..end], a, &mut out[..room], line);
    end
}

fn replacement_case(s: &[u8], out: &mut [u8], line: &mut [u8]) -> usize
    ensures { result ≤ length s.now }
{
    if s.len() < 21 {
        return 0;
    }
    let frames = four_bytes(s, 13);
    if s.len() - 21 < frames {
        return 0;
    }
    let start = 21 + frames;
    let length = four_bytes(s, 17);
    if s.len() - start < length {
        return 0;
    }
    let end = start + length;
    let a = Replacement {
        sample: eight_bytes(s, 1),
        room: four_bytes(s, 9),
    };
    print_replaced_twice(&s[start..end], a, &s[21..start], out, line);
    end
}

fn comparison_case(s: &[u8], out: &mut [u8], line: &mut [u8]) -> usize
    ensures { result ≤ length s.now }
{
    if s.len() < 13 {
        return 0;
    }
    let first = four_bytes(s, 5);
    if s.len() - 13 < first {
        return 0;
    }
    let start = 13 + first;
    let second = four_bytes(s, 9);
    if s.len() - start < second {
        return 0;
    }
    let end = start + second;
    let room = four_bytes(s, 1).min(out.len());
    print_compared_twice(&s[13..start], &s[start..end], &mut out[..room], line);
    end
}

fn case(s: &[u8], out: &mut [u8], line: &mut [u8]) -> usize
    ensures { result ≤ length s.now }
{
    if s.len() == 0 {
        return 0;
    }
    match s[0] {
        4 => module_case(s, out, line),
        5 => records_case(s, out, line),
        6 => replacement_case(s, out, line),
        7 => comparison_case(s, out, line),
        _ => 0,
    }
}

// Prints the answers for every case, and returns the number of cases.
pub fn run(s: &[u8], out: &mut [u8], line: &mut [u8]) -> usize {
    let mut at = 0;
    let mut n = 0;
    while at < s.len() {
        let size = case(&s[at..], out, line);
        if size == 0 {
            return n;
        }
        at += size;
        n += 1;
    }
    n
}
