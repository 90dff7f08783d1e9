// The check of a whole module. The crates below define a module's numbers, chunks, blocks and checked fields. This one checks its loops and
// packed streams, refusals 14 and 15, and puts all refusals in order.

#![tactic(auto)]

mod loops;
mod streams;

ghost use Rattle.std.specs.Prelude.{◌≡◌};
ghost use Rattle.refusal.specs.Numbers.{verdict_numbers, IsAnswer};
ghost use Rattle.refusal.specs.Rules.{first_broken};
ghost use Rattle.layout.specs.Outlines.{outline_numbers};
ghost use Rattle.module.specs.Loops.{loop_kind, is_loop};
ghost use Rattle.module.specs.Verdicts.{content_rules, opened, module_verdict};

use crate::loops::check_loops;
use crate::streams::check_streams;
use layout::Layout;
use refusal::Refusal;

// Whether an instrument with these flags and this loop length is looped.
pub fn is_looped(flags: u16, length: u32) -> bool
    ensures { result ≡ is_loop (loop_kind flags length) }
{
    (length != 0) & ((flags % 2 == 1) | (flags / 2 % 2 == 1))
}

// Checks the content of the chunks: 11, then 12 and 13, then 14, then 15.
fn check_content(m: &[u8], l: Layout) -> Result<(), Refusal>
    ensures { result ≡ first_broken (content_rules m.now l) }
{
    blocks::check(m, l)?;
    fields::check(m, l)?;
    check_loops(m, l)?;
    check_streams(m, l)
}

// The layout of an accepted module, or the module's own refusal.
pub fn open(m: &[u8]) -> Result<Layout, Refusal>
    ensures { IsAnswer outline_numbers result (opened m.now) }
{
    let l = layout::find(m)?;
    check_content(m, l)?;
    Ok(l)
}

// Checks a module.
pub fn check(m: &[u8]) -> Result<(), Refusal>
    ensures { IsAnswer verdict_numbers result (module_verdict m.now) }
{
    open(m)?;
    Ok(())
}
