// Writing text. Each function writes to a text at a place, and returns the place after what it wrote. A number has at most 20 digits, and
// the contracts require that much room.
ghost use Rattle.std.specs.Prelude.{◌≡◌, ◌+◌, ◌<◌, ◌≤◌, length};
ghost use Rattle.listing_text.specs.Lines.{decimal, version_line, number_line, accepted_lines, refused_line};
ghost use Rattle.listing_text.specs.Lines.{digit as Lines·digit};
ghost use Rattle.listing_text.specs.Steps.{Put, count_lines};

use layout::Layout;
use refusal::Refusal;

// The byte of a decimal digit.
fn digit(d: usize) -> u8
    requires { d < 16 }
    ensures { result ≡ Lines·digit d }
{
    48 + d as u8
}

// The number of decimal digits of a number.
fn digits(n: usize) -> usize
    ensures { (result ≡ length (decimal n)) × (result ≤ 20) }
{
    let mut count: usize = 1;
    let mut rest = n;
    while 10 <= rest {
        rest = rest / 10;
        count = count + 1;
    }
    count
}

// Writes bytes.
pub fn put_word(text: &mut [u8], at: usize, word: &[u8]) -> usize
    requires { at + length word.now ≤ length text.old }
    ensures { Put text.old at word.now text.new result }
{
    let end = at + word.len();
    text[at..end].copy_from_slice(word);
    end
}

// Writes a number in decimal, from its last digit to its first.
fn put_decimal(text: &mut [u8], at: usize, n: usize) -> usize
    requires { at + 20 ≤ length text.old }
    ensures { Put text.old at (decimal n) text.new result × (result ≤ at + 20) }
{
    let end = at + digits(n);
    let mut rest = n;
    let mut to = end - 1;
    while 10 <= rest {
        text[to] = digit(rest % 10);
        rest = rest / 10;
        to = to - 1;
    }
    text[to] = digit(rest);
    end
}

// Writes the line of the version.
fn put_version(text: &mut [u8], at: usize, version: u8, revision: u8) -> usize
    requires { at + 32 ≤ length text.old }
    ensures { Put text.old at (version_line version revision) text.new result × (result ≤ at + 32) }
{
    let mut next = put_word(text, at, b"version ");
    next = put_decimal(text, next, version as usize);
    let tens = digit((revision / 16) as usize);
    let ones = digit((revision % 16) as usize);
    put_word(text, next, &[b'.', tens, ones, b'\n'])
}

// Writes a line of a word and a number.
fn put_line(text: &mut [u8], at: usize, word: &[u8], n: usize) -> usize
    requires { at + length word.now + 21 ≤ length text.old }
    ensures { Put text.old at (number_line word.now n) text.new result × (result ≤ at + length word.now + 21) }
{
    let mut next = put_word(text, at, word);
    next = put_decimal(text, next, n);
    put_word(text, next, b"\n")
}

// Writes the lines of INFO's numbers.
fn put_counts(
    text: &mut [u8],
    at: usize,
    instruments: u16,
    samples: u16,
    songs: u16,
    patterns: u16,
    tracks: u16,
) -> usize
    requires { at + 147 ≤ length text.old }
    ensures { Put text.old at (count_lines instruments samples songs patterns tracks) text.new result × (result ≤ at + 147) }
{
    let mut next = put_line(text, at, b"instruments ", instruments as usize);
    next = put_line(text, next, b"samples ", samples as usize);
    next = put_line(text, next, b"songs ", songs as usize);
    next = put_line(text, next, b"patterns ", patterns as usize);
    put_line(text, next, b"tracks ", tracks as usize)
}

// Writes the seven lines of an accepted module with the given length.
pub fn put_accepted(text: &mut [u8], l: Layout, bytes: usize) -> usize
    requires { 256 ≤ length text.old }
    ensures { Put text.old 0 (accepted_lines l bytes) text.new result × (result ≤ 256) }
{
    let mut at = put_version(text, 0, l.version, l.revision);
    at = put_counts(
        text,
        at,
        l.instruments,
        l.samples,
        l.songs,
        l.patterns,
        l.tracks,
    );
    put_line(text, at, b"accepted ", bytes)
}

// Writes the line of a refusal.
pub fn put_refused(text: &mut [u8], r: Refusal) -> usize
    requires { 256 ≤ length text.old }
    ensures { Put text.old 0 (refused_line r) text.new result × (result ≤ 256) }
{
    let number = r.number as usize;
    let place = r.place;
    let mut at = put_word(text, 0, b"refused ");
    at = put_decimal(text, at, number);
    at = put_word(text, at, b" at ");
    at = put_decimal(text, at, place);
    put_word(text, at, b"\n")
}
