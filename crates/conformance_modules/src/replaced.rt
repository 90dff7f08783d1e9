// Replacing a sample of a module: a line with the refusal's number and place, the length, the number of loops that were cleared, and the
// output in hexadecimal.
use conformance_text::text::{fill, print_bytes};

// The sample to replace, and the room of the case.
#[derive(Clone, Copy)]
pub struct Replacement {
    pub sample: usize,
    pub room: usize,
}

fn print_replaced(m: &[u8], sample: usize, frames: &[u8], out: &mut [u8], line: &mut [u8]) {
    fill(out);
    let a = replace::replace(m, sample, frames, out);
    let numbers = [
        a.outcome.number as usize,
        a.outcome.place,
        a.length,
        a.cleared,
    ];
    print_bytes(b"replaced", &numbers, out, line);
}

// Prints the answer with the first n bytes of an output.
fn print_replaced_within(
    m: &[u8],
    sample: usize,
    frames: &[u8],
    n: usize,
    out: &mut [u8],
    line: &mut [u8],
) {
    let room = n.min(out.len());
    print_replaced(m, sample, frames, &mut out[..room], line);
}

// Prints the answer with the room of the case, and with an output that is always enough.
pub fn print_replaced_twice(
    m: &[u8],
    a: Replacement,
    frames: &[u8],
    out: &mut [u8],
    line: &mut [u8],
) {
    print_replaced_within(m, a.sample, frames, a.room, out, line);
    print_replaced_within(m, a.sample, frames, m.len() + frames.len(), out, line);
}
