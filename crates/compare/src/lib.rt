// Comparing two modules: the list of what differs, by the kinds and numbers of records. The blocks of both modules are walked together,
// first to count the entries of the list, then to write them. The modules are read in place, and no memory is needed beyond a row of each.

#![tactic(auto)]

ghost use Rattle.std.specs.Prelude.{◌≡◌, not, ◌+◌, ◌-◌, ◌*◌, ◌<◌, ◌≤◌, length};
ghost use Rattle.numbers.specs.Numbers.{part_of};
ghost use Rattle.differences.specs.Differences.{whole_difference, difference_if, entries_listed, equal_bytes};
ghost use Rattle.packed_rows.specs.ComparingSteps.{SmallCount};
ghost use Rattle.blocks.specs.StoredFields.{pattern_rows, envelope_sections};
ghost use Rattle.blocks.specs.Sizes.{size_of};
ghost use Rattle.blocks.specs.declared.RecordKind.TheVariants.{Song, Instrument, Pattern, Sample, VolumeEnvelope, PanningEnvelope};
ghost use Rattle.blocks.specs.RecordKinds.{count_of};
ghost use Rattle.module.specs.Verdicts.{opened};
ghost use Rattle.envelopes.specs.Shown.{record_kind};
ghost use Rattle.records.specs.Records.{record_at};
ghost use Rattle.records.specs.Steps.{point_record, points_from, ValuesScale};
ghost use Rattle.compare.specs.Compared.{kind_of, name_differences, number_differences, info_differences, patterns_differences};
ghost use Rattle.compare.specs.Compared.{block_differences, kind_differences, differences};
ghost use Rattle.compare.specs.Compared.{refused_compare, compared_if, compare_second, compare_answer, output_second, compare_output};
ghost use Rattle.compare.specs.Steps.{BothOpen, BothThere, common_differences, whole_differences};

use blocks::stored::{envelope_sections, packed_bytes, pattern_rows};
use blocks::{BlockKind, RecordKind, block_at, chunk_of, count_of, size};
use differences::{equal, list, whole_difference};
use envelopes::{EnvelopeKind, position, value};
use layout::Layout;
use numbers::part;
use queries::first_of;
use refusal::{Outcome, Reason, Refusal, refuse};
use summary::name_of;

// The number of entries in the list of differences.
#[repr(C)]
#[derive(Clone, Copy)]
pub struct CompareAnswer {
    pub outcome: Outcome,
    pub entries: usize,
}

// The answer of a call that refuses.
fn refused(r: Refusal) -> CompareAnswer
    ensures { result ≡ refused_compare r }
{
    CompareAnswer {
        outcome: Outcome::from(Err(r)),
        entries: 0,
    }
}

// The kind of the entries for records of a kind.
fn kind_of(kind: RecordKind) -> u16
    ensures { result ≡ kind_of kind }
{
    match kind {
        RecordKind::Song => 3,
        RecordKind::Instrument => 4,
        RecordKind::Pattern => 8,
        RecordKind::Sample => 7,
        RecordKind::VolumeEnvelope => 5,
        RecordKind::PanningEnvelope => 6,
    }
}

// Whether two envelopes with the same number of sections show the same point.
fn same_point(
    m: &[u8],
    k: &[u8],
    kind: EnvelopeKind,
    version: u8,
    other: u8,
    at: usize,
    to: usize,
    sections: u8,
    point: u8,
) -> bool
    requires { (sections ≡ envelope_sections m.now at) × (sections ≡ envelope_sections k.now to)
        × ValuesScale m.now version (record_kind kind) at × ValuesScale k.now other (record_kind kind) to }
    ensures { result ≡ equal_bytes (point_record m.now kind version at point) (point_record k.now kind other to point) }
{
    let p = position(m, at, sections, point);
    let q = position(k, to, sections, point);
    let v = value(m, kind, version, at, sections, point);
    let w = value(k, kind, other, to, sections, point);
    (p == q) & (v == w)
}

// Whether two envelopes with the same number of sections show the same points.
fn same_points(
    m: &[u8],
    k: &[u8],
    kind: EnvelopeKind,
    version: u8,
    other: u8,
    at: usize,
    to: usize,
) -> bool
    requires { (envelope_sections m.now at ≡ envelope_sections k.now to)
        × ValuesScale m.now version (record_kind kind) at × ValuesScale k.now other (record_kind kind) to }
    ensures { result ≡ equal_bytes (points_from m.now kind version at 32 0) (points_from k.now kind other to 32 0) }
{
    let sections = envelope_sections(m, at);
    (0..32).all(|point| same_point(m, k, kind, version, other, at, to, sections, point))
}

// Whether two envelopes are shown the same.
fn same_envelope(
    m: &[u8],
    k: &[u8],
    kind: EnvelopeKind,
    version: u8,
    other: u8,
    at: usize,
    to: usize,
) -> bool
    requires { (at + 136 ≤ length m.now) × (to + 136 ≤ length k.now)
        × ValuesScale m.now version (record_kind kind) at × ValuesScale k.now other (record_kind kind) to }
    ensures { result ≡ equal_bytes (record_at m.now version (record_kind kind) at) (record_at k.now other (record_kind kind) to) }
{
    if !equal(part(m, at, 8), part(k, to, 8)) {
        return false;
    }
    same_points(m, k, kind, version, other, at, to)
}

// Whether two blocks have the same bytes.
fn same_block(m: &[u8], k: &[u8], kind: BlockKind, at: usize, to: usize) -> bool
    ensures { result ≡ equal_bytes (part_of m.now at (size_of kind m.now at))
        (part_of k.now to (size_of kind k.now to)) }
{
    let n = size(m, kind, at);
    let o = size(k, kind, to);
    equal(part(m, at, n), part(k, to, o))
}

// Lists an entry for a whole record after n others if it differs, and returns the number of entries listed.
fn list_whole(same: bool, kind: RecordKind, number: u16, n: usize, out: &mut [u8]) -> usize
    ensures { (result ≡ length (difference_if (not same) (whole_difference (kind_of kind) number))) × (result ≤ 1)
        × (out.new ≡ entries_listed (difference_if (not same) (whole_difference (kind_of kind) number)) n out.old) }
{
    list(!same, whole_difference(kind_of(kind), number), n, out)
}

// Lists the differences of two patterns of the same size, after n entries, and returns their number. Streams with the same bytes hold the
// same cells.
fn list_cells(
    m: &[u8],
    l: Layout,
    k: &[u8],
    j: Layout,
    number: u16,
    at: usize,
    to: usize,
    n: usize,
    out: &mut [u8],
) -> usize
    requires { BothThere m.now l k.now j Pattern number at to × (l.tracks ≡ j.tracks) × (pattern_rows m.now at ≡ pattern_rows k.now to)
        × SmallCount n }
    ensures { (result ≡ length (patterns_differences m.now l k.now j number at to))
        × (out.new ≡ entries_listed (patterns_differences m.now l k.now j number at to) n out.old) }
{
    let a = packed_bytes(m, at);
    let b = packed_bytes(k, to);
    if equal(a, b) {
        return 0;
    }
    let rows = pattern_rows(m, at) as usize;
    let start = 10 * n.min(out.len() / 10);
    // Both modules are accepted, so their streams are.
    packed_rows::compare(a, b, rows, l.tracks as usize, number, &mut out[start..]).unwrap()
}

// Lists the differences of two patterns, after n entries, and returns their number.
fn list_pattern(
    m: &[u8],
    l: Layout,
    k: &[u8],
    j: Layout,
    number: u16,
    at: usize,
    to: usize,
    n: usize,
    out: &mut [u8],
) -> usize
    requires { BothThere m.now l k.now j Pattern number at to × SmallCount n }
    ensures { (result ≡ length (patterns_differences m.now l k.now j number at to))
        × (out.new ≡ entries_listed (patterns_differences m.now l k.now j number at to) n out.old) }
{
    if l.tracks != j.tracks {
        return list_whole(false, RecordKind::Pattern, number, n, out);
    }
    if pattern_rows(m, at) != pattern_rows(k, to) {
        return list_whole(false, RecordKind::Pattern, number, n, out);
    }
    list_cells(m, l, k, j, number, at, to, n, out)
}

// Lists the differences of two blocks with the same number, after n entries, and returns their number.
fn list_block(
    m: &[u8],
    l: Layout,
    k: &[u8],
    j: Layout,
    kind: RecordKind,
    number: u16,
    at: usize,
    to: usize,
    n: usize,
    out: &mut [u8],
) -> usize
    requires { BothThere m.now l k.now j kind number at to × SmallCount n }
    ensures { (result ≡ length (block_differences m.now l k.now j kind number at to))
        × (out.new ≡ entries_listed (block_differences m.now l k.now j kind number at to) n out.old) }
{
    let v = l.version;
    let w = j.version;
    match kind {
        RecordKind::Song => list_whole(
            same_block(m, k, BlockKind::Song, at, to),
            kind,
            number,
            n,
            out,
        ),
        RecordKind::Instrument => list_whole(
            same_block(m, k, BlockKind::Instrument, at, to),
            kind,
            number,
            n,
            out,
        ),
        RecordKind::Pattern => list_pattern(m, l, k, j, number, at, to, n, out),
        RecordKind::Sample => list_whole(
            same_block(m, k, BlockKind::Sample, at, to),
            kind,
            number,
            n,
            out,
        ),
        RecordKind::VolumeEnvelope => list_whole(
            same_envelope(m, k, EnvelopeKind::Volume, v, w, at, to),
            kind,
            number,
            n,
            out,
        ),
        RecordKind::PanningEnvelope => list_whole(
            same_envelope(m, k, EnvelopeKind::Panning, v, w, at, to),
            kind,
            number,
            n,
            out,
        ),
    }
}

// Lists the differences of the first records of a kind that both modules have, after n entries, and returns their number.
fn list_common(
    m: &[u8],
    l: Layout,
    k: &[u8],
    j: Layout,
    kind: RecordKind,
    common: usize,
    n: usize,
    out: &mut [u8],
) -> usize
    requires { BothOpen m.now l k.now j × (common ≤ count_of m.now l kind) × (common ≤ count_of k.now j kind)
        × SmallCount (n + length (common_differences m.now l k.now j kind common)) }
    ensures { (result ≡ length (common_differences m.now l k.now j kind common))
        × (out.new ≡ entries_listed (common_differences m.now l k.now j kind common) n out.old) }
{
    let blocks = BlockKind::from(kind);
    let mut at = block_at(m, blocks, chunk_of(l, kind), 0);
    let mut to = block_at(k, blocks, chunk_of(j, kind), 0);
    let first = first_of(kind);
    let mut count: usize = 0;
    for number in first..first + common {
        count = count + list_block(m, l, k, j, kind, number as u16, at, to, n + count, out);
        at = at + size(m, blocks, at);
        to = to + size(k, blocks, to);
    }
    count
}

// Lists an entry for each record of a kind that is in one module only, after n entries, and returns their number.
fn list_single(kind: RecordKind, start: usize, end: usize, n: usize, out: &mut [u8]) -> usize
    requires { (start ≤ end) × (end ≤ 65536) × SmallCount n }
    ensures { (result ≡ length (whole_differences kind start (end - start))) × (result ≤ 65536)
        × (out.new ≡ entries_listed (whole_differences kind start (end - start)) n out.old) }
{
    let mut count: usize = 0;
    for number in start..end {
        count = count + list_whole(false, kind, number as u16, n + count, out);
    }
    count
}

// Lists the differences of all records of a kind, after n entries, and returns their number.
fn list_kind(
    m: &[u8],
    l: Layout,
    k: &[u8],
    j: Layout,
    kind: RecordKind,
    n: usize,
    out: &mut [u8],
) -> usize
    requires { BothOpen m.now l k.now j × SmallCount (n + length (kind_differences m.now l k.now j kind)) }
    ensures { (result ≡ length (kind_differences m.now l k.now j kind))
        × (out.new ≡ entries_listed (kind_differences m.now l k.now j kind) n out.old) }
{
    let first = first_of(kind);
    let a = count_of(m, l, kind) as usize;
    let b = count_of(k, j, kind) as usize;
    let common = a.min(b);
    let count = list_common(m, l, k, j, kind, common, n, out);
    count + list_single(kind, first + common, first + a.max(b), n + count, out)
}

// Lists an entry for a number of INFO after n others if it differs, and returns the number of entries listed.
fn list_number(a: u16, b: u16, field: u16, n: usize, out: &mut [u8]) -> usize
    ensures { (result ≡ length (number_differences a b field)) × (result ≤ 1)
        × (out.new ≡ entries_listed (number_differences a b field) n out.old) }
{
    list(a != b, whole_difference(2, field), n, out)
}

// Lists the numbers of INFO that differ, after n entries, and returns the number of entries listed.
fn list_info(l: Layout, j: Layout, n: usize, out: &mut [u8]) -> usize
    requires { SmallCount n }
    ensures { (result ≡ length (info_differences l j)) × (result ≤ 5) × (out.new ≡ entries_listed (info_differences l j) n out.old) }
{
    let instruments = list_number(l.instruments, j.instruments, 0, n, out);
    let samples = instruments + list_number(l.samples, j.samples, 1, n + instruments, out);
    let songs = samples + list_number(l.songs, j.songs, 2, n + samples, out);
    let patterns = songs + list_number(l.patterns, j.patterns, 3, n + songs, out);
    patterns + list_number(l.tracks, j.tracks, 4, n + patterns, out)
}

// Lists the name if it differs, and returns the number of entries listed.
fn list_name(m: &[u8], l: Layout, k: &[u8], j: Layout, out: &mut [u8]) -> usize
    ensures { (result ≡ length (name_differences m.now l k.now j)) × (result ≤ 1)
        × (out.new ≡ entries_listed (name_differences m.now l k.now j) 0 out.old) }
{
    let a = name_of(m, l);
    let b = name_of(k, j);
    list(!equal(&a, &b), whole_difference(1, 0), 0, out)
}

// Lists all differences of two accepted modules, and returns their number. Entries for which the output has no room are not written.
fn list_all(m: &[u8], l: Layout, k: &[u8], j: Layout, out: &mut [u8]) -> usize
    requires { BothOpen m.now l k.now j }
    ensures { (result ≡ length (differences m.now l k.now j)) × SmallCount result
        × (out.new ≡ entries_listed (differences m.now l k.now j) 0 out.old) }
{
    let name = list_name(m, l, k, j, out);
    let mut n = name + list_info(l, j, name, out);
    for kind in [
        RecordKind::Song,
        RecordKind::Instrument,
        RecordKind::VolumeEnvelope,
        RecordKind::PanningEnvelope,
        RecordKind::Sample,
        RecordKind::Pattern,
    ] {
        n = n + list_kind(m, l, k, j, kind, n, out);
    }
    n
}

// The number of all differences of two accepted modules.
fn count_all(m: &[u8], l: Layout, k: &[u8], j: Layout) -> usize
    requires { BothOpen m.now l k.now j }
    ensures { (result ≡ length (differences m.now l k.now j)) × SmallCount result }
{
    let mut none = [0u8; 0];
    list_all(m, l, k, j, &mut none)
}

// Compares two accepted modules. The only refusal is 17.
fn compare_opened(m: &[u8], l: Layout, k: &[u8], j: Layout, out: &mut [u8]) -> CompareAnswer
    requires { BothOpen m.now l k.now j }
    ensures { (result ≡ compared_if (differences m.now l k.now j) (length out.old))
        × (out.new ≡ output_second m.now l k.now out.old (Ok j)) }
{
    let needed = 10 * count_all(m, l, k, j);
    if out.len() < needed {
        return refused(refuse(Reason::Room, needed));
    }
    CompareAnswer {
        outcome: Outcome::from(Ok(())),
        entries: list_all(m, l, k, j, out),
    }
}

// Compares an accepted module with another: the other module's own refusal, 17.
fn compare_second(m: &[u8], l: Layout, k: &[u8], out: &mut [u8]) -> CompareAnswer
    requires { opened m.now ≡ Ok l }
    ensures { (result ≡ compare_second m.now l k.now (length out.old) (opened k.now))
        × (out.new ≡ output_second m.now l k.now out.old (opened k.now)) }
{
    match module::open(k) {
        Ok(j) => compare_opened(m, l, k, j, out),
        Err(r) => refused(r),
    }
}

// Compares two modules. The refusals are the first module's own, the second module's own, then 17.
pub fn compare(m: &[u8], k: &[u8], out: &mut [u8]) -> CompareAnswer
    ensures { (result ≡ compare_answer m.now k.now (length out.old))
        × (out.new ≡ compare_output m.now k.now out.old) }
{
    match module::open(m) {
        Ok(l) => compare_second(m, l, k, out),
        Err(r) => refused(r),
    }
}
