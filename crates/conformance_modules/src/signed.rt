// Signed numbers and 2-byte numbers in a line of text.
use conformance_text::text::put_number;

// Writes a space and a number in decimal, with its sign if it is negative.
pub fn put_signed(line: &mut [u8], at: usize, x: i32) -> usize {
    let size = x.unsigned_abs() as usize;
    if x < 0 {
        return put_number(line, at, b" -", size);
    }
    put_number(line, at, b" ", size)
}

// Writes each 2-byte number with a space before it.
pub fn put_words(line: &mut [u8], at: usize, numbers: &[u16]) -> usize {
    let mut next = at;
    for &n in numbers {
        next = put_number(line, next, b" ", n as usize);
    }
    next
}

// The same for signed numbers.
pub fn put_all_signed(line: &mut [u8], at: usize, numbers: &[i32]) -> usize {
    let mut next = at;
    for &x in numbers {
        next = put_signed(line, next, x);
    }
    next
}
