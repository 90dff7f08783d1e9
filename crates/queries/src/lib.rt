// What all queries about a module have in common: finding a block, and reading a name.

#![tactic(auto)]

ghost use Rattle.std.specs.Prelude.{◌≡◌};
ghost use Rattle.refusal.specs.Numbers.{IsAnswer};
ghost use Rattle.numbers.specs.Numbers.{SmallPlace, bytes_from};
ghost use Rattle.queries.specs.Finding.{first_of, found_in, found, place_in, found_numbers};

use blocks::{BlockKind, RecordKind, block_at, chunk_of, count_of};
use layout::Layout;
use numbers::copy;
use refusal::{Reason, Refusal, refuse};

// The place of a block of an accepted module, and the version and tracks by which it is shown.
#[derive(Clone, Copy)]
pub struct Block {
    pub at: usize,
    pub version: u8,
    pub tracks: u16,
}

// The number of the first record: 1 for instruments and samples, 0 for all else.
pub fn first_of(kind: RecordKind) -> usize
    ensures { result ≡ first_of kind }
{
    match kind {
        RecordKind::Song => 0,
        RecordKind::Instrument => 1,
        RecordKind::Pattern => 0,
        RecordKind::Sample => 1,
        RecordKind::VolumeEnvelope => 0,
        RecordKind::PanningEnvelope => 0,
    }
}

// The block with a number, in a module with this layout: 18.
pub fn find_in(m: &[u8], l: Layout, kind: RecordKind, number: usize) -> Result<Block, Refusal>
    ensures { IsAnswer found_numbers result (found_in m.now l kind number) × SmallPlace (place_in result) }
{
    let first = first_of(kind);
    if number < first {
        return Err(refuse(Reason::NotThere, 0));
    }
    let index = number - first;
    if (count_of(m, l, kind) as usize) <= index {
        return Err(refuse(Reason::NotThere, 0));
    }
    Ok(Block {
        at: block_at(m, BlockKind::from(kind), chunk_of(l, kind), index as u16),
        version: l.version,
        tracks: l.tracks,
    })
}

// The block with a number in a module: the module's own refusal, then 18.
pub fn find(m: &[u8], kind: RecordKind, number: usize) -> Result<Block, Refusal>
    ensures { IsAnswer found_numbers result (found m.now kind number) × SmallPlace (place_in result) }
{
    let l = module::open(m)?;
    find_in(m, l, kind, number)
}

// A name of N bytes.
pub fn name<const N: usize>(m: &[u8], at: usize) -> [u8; N]
    ensures { result ≡ bytes_from m.now at N }
{
    let mut name = [0u8; N];
    copy(m, at, &mut name);
    name
}
