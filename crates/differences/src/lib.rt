// The list of differences of two modules: its entries, writing one of them, and whether two slices have the same bytes.

#![tactic(auto)]

ghost use Rattle.std.specs.Prelude.{◌≡◌, ◌*◌, ◌≤◌, length};
ghost use Rattle.numbers.specs.Numbers.{put_at};
ghost use Rattle.differences.specs.Differences.{difference_bytes, whole_difference, difference_if, entries_listed, equal_bytes};

use numbers::put16;

// An entry of the list of differences. Row, track and field are 0 except for a field of a cell. The kind is a number, because the
// entry is promised for every kind that fits its 2 bytes.
#[derive(Clone, Copy)]
pub struct Difference {
    pub kind: u16,
    pub number: u16,
    pub row: u16,
    pub track: u16,
    pub field: u16,
}

// The entry for something that is compared as a whole.
pub fn whole_difference(kind: u16, number: u16) -> Difference
    ensures { result ≡ whole_difference kind number }
{
    Difference {
        kind,
        number,
        row: 0,
        track: 0,
        field: 0,
    }
}

// Writes the entry with a number, counted from 0, to its place in the list, if the output has room for it.
pub fn put(d: Difference, n: usize, out: &mut [u8])
    ensures { out.new ≡ put_at (difference_bytes d) (10 * n) out.old }
{
    if out.len() / 10 <= n {
        return;
    }
    let at = 10 * n;
    put16(d.kind, at, out);
    put16(d.number, at + 2, out);
    put16(d.row, at + 4, out);
    put16(d.track, at + 6, out);
    put16(d.field, at + 8, out);
}

// Lists an entry after n others if there is a difference, and returns the number of entries listed: 1 or 0. An entry for which the output
// has no room is counted and not written.
pub fn list(differs: bool, d: Difference, n: usize, out: &mut [u8]) -> usize
    ensures { (result ≡ length (difference_if differs d)) × (result ≤ 1)
        × (out.new ≡ entries_listed (difference_if differs d) n out.old) }
{
    if !differs {
        return 0;
    }
    put(d, n, out);
    1
}

// Whether two slices of the same length have the same bytes. The loop has no exit before its end, so many bytes are compared at once.
fn equal_all(a: &[u8], b: &[u8]) -> bool
    requires { length a.now ≡ length b.now }
    ensures { result ≡ equal_bytes a.now b.now }
{
    let mut same = true;
    for i in 0..a.len() {
        same &= a[i] == b[i];
    }
    same
}

// Whether two slices have the same bytes.
pub fn equal(a: &[u8], b: &[u8]) -> bool
    ensures { result ≡ equal_bytes a.now b.now }
{
    if a.len() != b.len() {
        return false;
    }
    equal_all(a, b)
}
