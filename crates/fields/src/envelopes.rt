// The checked fields of envelopes: refusals 12 and 13.
ghost use Rattle.std.specs.Prelude.{◌≡◌};
ghost use Rattle.refusal.specs.Rules.{first_broken};
ghost use Rattle.numbers.specs.Numbers.{SmallPlace};
ghost use Rattle.fields.specs.Fields.{panning_fits, envelope_head_rules, envelope_point_rules, value_fits, values_rules, envelope_rules};

use blocks::stored::{
    ENVELOPE_FIRST_SUSTAIN, ENVELOPE_FLAGS, ENVELOPE_LOOP_FIRST, ENVELOPE_LOOP_LAST,
    ENVELOPE_POINTS, ENVELOPE_SECOND_SUSTAIN, ENVELOPE_SECTIONS, POINT_VALUE,
    envelope_first_sustain, envelope_flags, envelope_instrument, envelope_loop_first,
    envelope_loop_last, envelope_second_sustain, envelope_sections, envelope_value,
};
use refusal::{Reason, Refusal, refuse};

// Checks instrument, flags and sections of the envelope at a place.
fn check_head(m: &[u8], at: usize, instruments: u16) -> Result<(), Refusal>
    requires { SmallPlace at }
    ensures { result ≡ first_broken (envelope_head_rules m.now instruments at) }
{
    let instrument = envelope_instrument(m, at);
    if (instrument < 1) | (instruments < instrument) {
        return Err(refuse(Reason::Reference, at));
    }
    if 16 <= envelope_flags(m, at) {
        return Err(refuse(Reason::FieldRange, at + ENVELOPE_FLAGS));
    }
    if 31 < envelope_sections(m, at) {
        return Err(refuse(Reason::FieldRange, at + ENVELOPE_SECTIONS));
    }
    Ok(())
}

// Checks S1, L1, L2 and S2, each if its flag is set.
fn check_points(m: &[u8], flags: u8, sections: u8, at: usize) -> Result<(), Refusal>
    requires { SmallPlace at }
    ensures { result ≡ first_broken (envelope_point_rules m.now flags sections at) }
{
    let looped = flags / 2 / 2 % 2 == 1;
    let start = envelope_loop_first(m, at);
    let end = envelope_loop_last(m, at);
    if (flags / 2 % 2 == 1) & (sections < envelope_first_sustain(m, at)) {
        return Err(refuse(Reason::FieldRange, at + ENVELOPE_FIRST_SUSTAIN));
    }
    if looped & (sections < start) {
        return Err(refuse(Reason::FieldRange, at + ENVELOPE_LOOP_FIRST));
    }
    if looped & ((sections < end) | (end < start)) {
        return Err(refuse(Reason::FieldRange, at + ENVELOPE_LOOP_LAST));
    }
    if (flags / 2 / 2 / 2 % 2 == 1) & (sections < envelope_second_sustain(m, at)) {
        return Err(refuse(Reason::FieldRange, at + ENVELOPE_SECOND_SUSTAIN));
    }
    Ok(())
}

// Whether a stored number, taken as signed, is −128 to 128.
pub fn panning_fits(v: u16) -> bool
    ensures { result ≡ panning_fits v }
{
    (v <= 128) | (65408 <= v)
}

// Whether a value is 0 to 64, or −128 to 128 if values are signed.
fn value_fits(signed: bool, v: u16) -> bool
    ensures { result ≡ value_fits signed v }
{
    if signed {
        return panning_fits(v);
    }
    v <= 64
}

// Checks the values of the points in use.
fn check_values(m: &[u8], signed: bool, sections: u8, at: usize) -> Result<(), Refusal>
    requires { SmallPlace at }
    ensures { result ≡ first_broken (values_rules m.now signed sections at) }
{
    for point in 0..=sections {
        if !value_fits(signed, envelope_value(m, at, point)) {
            return Err(refuse(
                Reason::FieldRange,
                at + ENVELOPE_POINTS + POINT_VALUE + 4 * (point as usize),
            ));
        }
    }
    Ok(())
}

// Checks the envelope at a place.
pub fn check_envelope(m: &[u8], at: usize, instruments: u16, signed: bool) -> Result<(), Refusal>
    requires { SmallPlace at }
    ensures { result ≡ first_broken (envelope_rules m.now instruments signed at) }
{
    check_head(m, at, instruments)?;
    let sections = envelope_sections(m, at);
    check_points(m, envelope_flags(m, at), sections, at)?;
    check_values(m, signed, sections, at)
}
