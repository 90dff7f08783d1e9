// Prints the answers of the libraries for each case on standard input. The cases are about packed rows and cells.
//
// The input has at most 524,288 bytes, and its numbers are big-endian. A case is one of
//   1, rows u64, tracks u64, row u64, track u64, room u32, length u32, a stream of that length:
//      prints the answers of checking, unpacking and repacking it, and of the query for one cell;
//   2, rows u64, tracks u64, room u32, length u32, cells of that length: prints the answer of packing;
//   3, the six bytes of a cell: prints the shown cell.
// Room is the length of the lent output; more than 65,536 is taken as 65,536. Each byte of the output is 170 before the call.
// Any other first byte, or a case that is cut, ends the run. The last line is the number of cases.

#![tactic(auto)]

mod cases;

use crate::cases::run;
use conformance_text::text::print_numbers;
use conformance_text::{input_space, line_space};

fn main() {
    let mut input = input_space();
    let n = io::read_full(0, &mut input);
    let mut out = io::large_buffer();
    let mut line = line_space();
    let cases = run(&input[..n], &mut out, &mut line);
    print_numbers(b"cases", &[cases], &mut line);
}
