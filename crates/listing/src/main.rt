// Prints the listing of the module on standard input, as in document 01: its seven lines, or `refused NUMBER at PLACE`. For more than
// 65,536 bytes it prints `input too big`, and for an input that cannot be read to its end `input not read`.

#![tactic(auto)]

ghost use Rattle.std.specs.Prelude.{◌≡◌, ◌≤◌, length, take, IfOk};
ghost use Rattle.io.specs.Counts.{IsPrefixLen};
ghost use Rattle.listing.specs.Printed.{printed};

use std::io::{Read, Result};

// Room for the input, and for one more byte, which shows that it is too big. The `ensures` gives the length, which lending the array as a
// slice needs.
fn input_space() -> [u8; 65537]
    ensures { 65537 ≡ length result }
{
    [0; 65537]
}

// Reads until the reader ends or there is no more room, and returns the number of bytes read. No contract can say which bytes are read.
fn read_input<R: Read>(reader: &mut R, input: &mut [u8]) -> Result<usize>
    ensures { IfOk result (λ n. IsPrefixLen n input.new) }
{
    let mut n = 0;
    while n < input.len() {
        let more = reader.read(&mut input[n..])?;
        if more == 0 {
            break;
        }
        n += more;
    }
    Ok(n)
}

// Writes bytes to the beginning of a text, and returns their number.
fn put(text: &mut [u8], bytes: &[u8]) -> usize
    requires { length bytes.now ≤ length text.old }
    ensures { (result ≡ length bytes.now) × (take result text.new ≡ bytes.now) }
{
    let n = bytes.len();
    text[..n].copy_from_slice(bytes);
    n
}

// Writes the output for an input to the beginning of a text, and returns its length.
fn put_printed(text: &mut [u8], input: &[u8]) -> usize
    requires { 256 ≤ length text.old }
    ensures { (take result text.new ≡ printed input.now) × IsPrefixLen result text.new }
{
    if 65536 < input.len() {
        return put(text, b"input too big\n");
    }
    // The text has room for every listing.
    listing_text::lines(input, text).unwrap()
}

fn main(rt: HostRuntime) {
    let mut input = input_space();
    let mut reader = rt.reader();
    match read_input(&mut reader, &mut input) {
        Ok(n) => {
            let mut text = [0u8; 256];
            let k = put_printed(&mut text, &input[..n]);
            io::write_all(1, &text[..k]);
        }
        Err(_) => {
            io::write_all(1, b"input not read\n");
        }
    }
}
