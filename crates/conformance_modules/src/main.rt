// Prints the answers of the libraries for each case on standard input. The cases are about modules.
//
// The input has at most 524,288 bytes, and its numbers are big-endian. A case is one of
//   4, room u32, length u32, a module of that length: prints the answers of checking, listing and repacking it, of repacking it with
//      an output as long as the module, and of the call for all records, with that room and with an output 60 bytes longer than the
//      module;
//   5, song u64, entry u64, instrument u64, envelope u64, pattern u64, row u64, track u64, sample u64, frame u64, room u32, length
//      u32, a module of that length: prints the answer of each query at these indices;
//   6, sample u64, room u32, frames length u32, module length u32, the new frames, the module: prints the answer of replacing the
//      sample, with that room and with an output as long as the module and the frames together;
//   7, room u32, first length u32, second length u32, the first module, the second module: prints the answer of comparing them, and
//      the answer with the two exchanged.
// Room is the length of the lent output. Every output has at most 65,536 bytes; a greater length is taken as that. Each byte of
// the output is 170 before the call. Any other first byte, or a case that is cut, ends the run. The last line is the number of cases.

#![tactic(auto)]

mod cases;
mod compared;
mod replaced;
mod shown;
mod signed;

use crate::cases::run;
use conformance_text::text::print_numbers;
use conformance_text::{input_space, line_space};

fn main() {
    let mut input = input_space();
    let n = io::read_full(0, &mut input);
    let mut out = io::large_buffer();
    let mut line = line_space();
    let cases = run(&input[..n], &mut out, &mut line);
    print_numbers(b"cases", &[cases], &mut line);
}
