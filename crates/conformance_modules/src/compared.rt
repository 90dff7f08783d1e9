// Comparing two modules: a line with the refusal's number and place, the number of entries, and the output in hexadecimal.
use conformance_text::text::{fill, print_bytes};

fn print_compared(first: &[u8], second: &[u8], out: &mut [u8], line: &mut [u8]) {
    fill(out);
    let a = compare::compare(first, second, out);
    let numbers = [a.outcome.number as usize, a.outcome.place, a.entries];
    print_bytes(b"compared", &numbers, out, line);
}

// Prints the answer, and the answer with the two modules exchanged.
pub fn print_compared_twice(first: &[u8], second: &[u8], out: &mut [u8], line: &mut [u8]) {
    print_compared(first, second, out, line);
    print_compared(second, first, out, line);
}
