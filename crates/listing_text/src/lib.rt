// The listing of a module, as document 01's program prints it, written to a lent output.

#![tactic(auto)]

mod text;

ghost use Rattle.std.specs.Prelude.{◌≡◌, ◌≤◌, length};
ghost use Rattle.refusal.specs.Numbers.{IsAnswer};
ghost use Rattle.refusal.specs.Lengths.{needed_if, output_written, value_numbers};
ghost use Rattle.listing_text.specs.Lines.{listing, lines_answer, lines_output};
ghost use Rattle.listing_text.specs.Steps.{Put};

use crate::text::{put_accepted, put_refused};
use refusal::{Reason, Refusal, refuse};

// Writes the listing of a module to the beginning of a text.
fn put_listing(text: &mut [u8], m: &[u8]) -> usize
    requires { 256 ≤ length text.old }
    ensures { Put text.old 0 (listing m.now) text.new result × (result ≤ 256) }
{
    match module::open(m) {
        Ok(l) => put_accepted(text, l, m.len()),
        Err(r) => put_refused(text, r),
    }
}

// Copies a text to a lent output: 17.
fn hand_out(text: &[u8], out: &mut [u8]) -> Result<usize, Refusal>
    ensures { (result ≡ needed_if (length text.now) (length out.old))
        × (out.new ≡ output_written result text.now out.old) }
{
    let n = text.len();
    if out.len() < n {
        return Err(refuse(Reason::Room, n));
    }
    out[..n].copy_from_slice(text);
    Ok(n)
}

// Writes the listing of a module: 17. The listing has at most 256 bytes.
pub fn lines(m: &[u8], out: &mut [u8]) -> Result<usize, Refusal>
    ensures { IsAnswer value_numbers result (lines_answer m.now (length out.old))
        × (out.new ≡ lines_output m.now out.old)
        × (length (listing m.now) ≤ 256) }
{
    let mut text = [0u8; 256];
    let n = put_listing(&mut text, m);
    hand_out(&text[..n], out)
}
