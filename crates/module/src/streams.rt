// The packed streams of the patterns: refusal 15.
ghost use Rattle.std.specs.Prelude.{◌≡◌};
ghost use Rattle.refusal.specs.Rules.{first_broken, accepted};
ghost use Rattle.module.specs.Streams.{stream_verdict, stream_rules};

use blocks::stored::{packed_bytes, pattern_rows};
use blocks::{BlockKind, places};
use layout::Layout;
use refusal::{Reason, Refusal, refuse};

// Whether the stream of the pattern at a place is accepted.
fn stream_fits(m: &[u8], tracks: u16, at: usize) -> bool
    ensures { result ≡ accepted (stream_verdict m.now tracks at) }
{
    let rows = pattern_rows(m, at) as usize;
    packed_rows::check(packed_bytes(m, at), rows, tracks as usize).is_ok()
}

// Checks the streams of the patterns.
pub fn check_streams(m: &[u8], l: Layout) -> Result<(), Refusal>
    ensures { result ≡ first_broken (stream_rules m.now l) }
{
    for at in places(m, BlockKind::Pattern, l.spans.patt, l.patterns) {
        if !stream_fits(m, l.tracks, at) {
            return Err(refuse(Reason::Stream, at));
        }
    }
    Ok(())
}
