// The size of a module and its header: refusals 1, 2, 3.
ghost use Rattle.std.specs.Prelude.{◌≡◌};
ghost use Rattle.refusal.specs.Rules.{first_broken};
ghost use Rattle.layout.specs.Header.{header_fits, version_fits, header_rules};

use numbers::{byte, number32};
use refusal::{Reason, Refusal, refuse};

// Whether there are 8 bytes, beginning with DBM0.
fn header_fits(m: &[u8]) -> bool
    ensures { result ≡ header_fits m.now }
{
    (8 <= m.len()) & (number32(m, 0) == 0x44424D30)
}

// Whether version and revision are in range.
fn version_fits(version: u8, revision: u8) -> bool
    ensures { result ≡ version_fits version revision }
{
    ((version == 2) | (version == 3)) & ((revision / 16 <= 9) & (revision % 16 <= 9))
}

// Checks size and header: 1, 2, 3.
pub fn check_header(m: &[u8]) -> Result<(), Refusal>
    ensures { result ≡ first_broken (header_rules m.now) }
{
    if 16777216 < m.len() {
        return Err(refuse(Reason::TooLong, 0));
    }
    if !header_fits(m) {
        return Err(refuse(Reason::NotAModule, 0));
    }
    if !version_fits(byte(m, 4), byte(m, 5)) {
        return Err(refuse(Reason::Version, 4));
    }
    Ok(())
}
