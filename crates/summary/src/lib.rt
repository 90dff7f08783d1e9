// Version, name and INFO's numbers of a module. Each query gives the module's own refusal first.

#![tactic(auto)]

ghost use Rattle.std.specs.Prelude.{◌≡◌};
ghost use Rattle.summary.specs.Shown.{no_version, version_answer, no_name, name_of, name_answer, no_info, info_answer};

use layout::Layout;
use refusal::{Outcome, Refusal};

// Version and revision, as stored.
#[repr(C)]
#[derive(Clone, Copy)]
pub struct VersionAnswer {
    pub outcome: Outcome,
    pub version: u8,
    pub revision: u8,
}

// The module's name.
#[repr(C)]
#[derive(Clone, Copy)]
pub struct NameAnswer {
    pub outcome: Outcome,
    pub name: [u8; 44],
}

// The numbers of instruments, samples, songs and patterns, and the number of tracks of a pattern.
#[repr(C)]
#[derive(Clone, Copy)]
pub struct InfoAnswer {
    pub outcome: Outcome,
    pub instruments: u16,
    pub samples: u16,
    pub songs: u16,
    pub patterns: u16,
    pub tracks: u16,
}

fn no_version(r: Refusal) -> VersionAnswer
    ensures { result ≡ no_version r }
{
    VersionAnswer {
        outcome: Outcome::from(Err(r)),
        version: 0,
        revision: 0,
    }
}

// Version and revision.
pub fn version(m: &[u8]) -> VersionAnswer
    ensures { result ≡ version_answer m.now }
{
    match module::open(m) {
        Ok(l) => VersionAnswer {
            outcome: Outcome::from(Ok(())),
            version: l.version,
            revision: l.revision,
        },
        Err(r) => no_version(r),
    }
}

fn no_name(r: Refusal) -> NameAnswer
    ensures { result ≡ no_name r }
{
    NameAnswer {
        outcome: Outcome::from(Err(r)),
        name: [0; 44],
    }
}

// The bytes of NAME, or zeros if it is missing.
pub fn name_of(m: &[u8], l: Layout) -> [u8; 44]
    ensures { result ≡ name_of m.now l }
{
    let p = l.spans.name;
    if !p.present {
        return [0; 44];
    }
    queries::name(m, (p.at as usize) + 8)
}

// The name.
pub fn name(m: &[u8]) -> NameAnswer
    ensures { result ≡ name_answer m.now }
{
    match module::open(m) {
        Ok(l) => NameAnswer {
            outcome: Outcome::from(Ok(())),
            name: name_of(m, l),
        },
        Err(r) => no_name(r),
    }
}

fn no_info(r: Refusal) -> InfoAnswer
    ensures { result ≡ no_info r }
{
    InfoAnswer {
        outcome: Outcome::from(Err(r)),
        instruments: 0,
        samples: 0,
        songs: 0,
        patterns: 0,
        tracks: 0,
    }
}

// INFO's numbers.
pub fn info(m: &[u8]) -> InfoAnswer
    ensures { result ≡ info_answer m.now }
{
    match module::open(m) {
        Ok(l) => InfoAnswer {
            outcome: Outcome::from(Ok(())),
            instruments: l.instruments,
            samples: l.samples,
            songs: l.songs,
            patterns: l.patterns,
            tracks: l.tracks,
        },
        Err(r) => no_info(r),
    }
}
