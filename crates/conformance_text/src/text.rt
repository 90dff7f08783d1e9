// Lines of text. A line is lent whole, with the place to write at; what does not fit is dropped.
ghost use Rattle.std.specs.Prelude.{◌≡◌, ◌++◌, ◌≤◌, length, replicate};
ghost use Rattle.std.proofs.lemmas.List.Edits.{sets};
ghost use Rattle.io.specs.Digits.{last_digits};
ghost use Rattle.conformance_text.specs.Text.{HasPut, decimal64, numbers_text, hex_text, newline, bytes_end, numbers_line, bytes_line};

// Sets every byte to 170.
pub fn fill(out: &mut [u8])
    ensures { out.new ≡ replicate (length out.old) 170 }
{
    out.fill(0xaa);
}

// Writes bytes to a line, and returns the place after them.
fn put(line: &mut [u8], at: usize, text: &[u8]) -> usize
    ensures { HasPut line.old at text.now line.new result }
{
    let start = at.min(line.len());
    let n = text.len().min(line.len() - start);
    line[start..start + n].copy_from_slice(&text[..n]);
    start + n
}

// Writes a word and a number in decimal.
pub fn put_number(line: &mut [u8], at: usize, word: &[u8], number: usize) -> usize
    ensures { HasPut line.old at (word.now ++ decimal64 number) line.new result }
{
    let mut figures = [0u8; 20];
    let k = io::decimal(number as u64, &mut figures);
    let next = put(line, at, word);
    put(line, next, &figures[..k])
}

// Writes each number with a space before it.
fn put_numbers(line: &mut [u8], at: usize, numbers: &[usize]) -> usize
    requires { at ≤ length line.old }
    ensures { HasPut line.old at (numbers_text numbers.now) line.new result }
{
    let mut next = at;
    for &number in numbers {
        next = put_number(line, next, b" ", number);
    }
    next
}

// Writes a byte in hexadecimal.
fn put_byte(line: &mut [u8], at: usize, x: u8) -> usize
    ensures { HasPut line.old at (last_digits 16 2 x) line.new result }
{
    let mut figures = [0u8; 16];
    let k = io::hex(x as u64, 2, &mut figures);
    put(line, at, &figures[..k])
}

// Writes bytes in hexadecimal.
fn put_hex(line: &mut [u8], at: usize, bytes: &[u8]) -> usize
    requires { at ≤ length line.old }
    ensures { HasPut line.old at (hex_text bytes.now) line.new result }
{
    let mut next = at;
    for &x in bytes {
        next = put_byte(line, next, x);
    }
    next
}

// Writes a word and numbers to the beginning of a line.
pub fn begin(line: &mut [u8], word: &[u8], numbers: &[usize]) -> usize
    ensures { HasPut line.old 0 (word.now ++ numbers_text numbers.now) line.new result }
{
    let at = put(line, 0, word);
    put_numbers(line, at, numbers)
}

// Ends a line, and prints it.
pub fn finish(line: &mut [u8], at: usize)
    ensures { line.new ≡ sets line.old at newline }
{
    let end = put(line, at, b"\n");
    io::write_all(1, &line[..end]);
}

// Ends a line with bytes in hexadecimal, and prints it.
pub fn finish_bytes(line: &mut [u8], at: usize, bytes: &[u8])
    ensures { line.new ≡ sets line.old at (bytes_end bytes.now) }
{
    let start = put(line, at, b" ");
    let end = put_hex(line, start, bytes);
    finish(line, end);
}

// Prints a line of a word and numbers.
pub fn print_numbers(word: &[u8], numbers: &[usize], line: &mut [u8])
    ensures { line.new ≡ sets line.old 0 (numbers_line word.now numbers.now) }
{
    let at = begin(line, word, numbers);
    finish(line, at);
}

// Prints a line of a word, numbers and bytes in hexadecimal.
pub fn print_bytes(word: &[u8], numbers: &[usize], bytes: &[u8], line: &mut [u8])
    ensures { line.new ≡ sets line.old 0 (bytes_line word.now numbers.now bytes.now) }
{
    let at = begin(line, word, numbers);
    finish_bytes(line, at, bytes);
}
