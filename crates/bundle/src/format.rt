// The format, byte by byte, and the entry rules.
ghost use Rattle.std.specs.Prelude.{◌≡◌, ◌+◌, ◌≤◌};
ghost use Rattle.spongewrap.specs.Sessions.{cost};
ghost use Rattle.spongewrap.specs.Refusals.{most_header, most_body};
ghost use Rattle.bundle.specs.Format.{version1, bundle_rate, size, entry_at, bad_label};

use crate::{Entry, NoEntry};
use fields::Number;
use spongewrap::orders;

// The version, and the settings of its session, which another default of sessions would not move.
pub const VERSION: u8 = 1;

pub const RATE: u16 = 136;

pub const TAG: usize = 16;

// Where entry zero stands: the version and the stated length come first.
pub const FIRST: usize = 5;

// The two lengths that stand before an entry's parts.
pub const LENGTHS: usize = 6;

pub const MOST_BYTES: usize = 16_777_216;

const LEAST_LABEL: usize = 16;

const MOST_LABEL: usize = 64;

// How many bytes an entry takes, by the lengths of its header and body.
pub fn entry_size(header: usize, body: usize) -> usize
    requires { (header ≤ most_header) × (body ≤ most_body) }
    ensures { result ≡ size version1 header body }
{
    LENGTHS + header + body + TAG
}

// The entry at a place, by the entry rules (document 01, "Bundle, version 1"), up to the end of the lent bytes.
#[tactic(auto, using(crate::proofs::Tables::tables), unfolding(crate::specs::Format::entry_at))]
pub fn entry_at(bundle: &[u8], place: usize) -> Result<Entry, NoEntry>
    ensures { result ≡ entry_at version1 bundle.now place }
{
    let left = bundle.len().saturating_sub(place);
    if left < LENGTHS {
        return Err(NoEntry::Short);
    }
    let header = u16::read(bundle, place) as usize;
    let body = u32::read(bundle, place + 2) as usize;
    if orders::MOST_BODY < body {
        return Err(NoEntry::Large);
    }
    let size = entry_size(header, body);
    if left < size {
        return Err(NoEntry::Past);
    }
    Ok(Entry {
        header,
        body,
        next: place + size,
    })
}

// The permutation calls that an entry adds to its session's, by the lengths of its header and body: any lengths, so that it is no part of what
// advances a session, whose lengths fit.
pub fn calls_of(header: usize, body: usize) -> u64
    ensures { (result ≡ cost bundle_rate version1.tag header body) × (result ≤ header + body + 2) }
{
    let rate = RATE as usize;
    spongewrap::block_count(header, rate)
        + spongewrap::block_count(body, rate)
        + (spongewrap::block_count(TAG, rate) - 1)
}

// Whether a label's length is out of range.
pub fn bad_label(label: usize) -> bool
    ensures { result ≡ bad_label label }
{
    refusal::outside(LEAST_LABEL, MOST_LABEL, label)
}
