// The big-endian numbers at the head of a case. A byte past the end counts as 0.
ghost use Rattle.std.specs.Prelude.{◌≡◌};
ghost use Rattle.numbers.specs.Numbers.{number32 as number32_at};
ghost use Rattle.conformance_text.specs.Heads.{number64};

use numbers::number32;

// The number of the four bytes at a place.
pub fn four_bytes(s: &[u8], at: usize) -> usize
    ensures { result ≡ number32_at s.now at }
{
    number32(s, at) as usize
}

// The number of the eight bytes at a place.
pub fn eight_bytes(s: &[u8], at: usize) -> usize
    ensures { result ≡ number64 s.now at }
{
    if s.len() <= at {
        return 0;
    }
    let high = number32(s, at) as usize;
    let low = number32(s, at + 4) as usize;
    high * 4294967296 + low
}
