// The limits, and each call's tests in their order.
ghost use Rattle.std.specs.Prelude.{◌≡◌, [], ◌∷◌, ◌++◌};
ghost use Rattle.refusal.specs.Rows.{first, by};
ghost use Rattle.refusal.specs.Numbers.{told};
ghost use Rattle.spongewrap.specs.Refusals.{bad_rate, full, open_rows, own_rows, rows_of, part_rows, open_refusal, wrap_refusal, ready_rows};
ghost use Rattle.spongewrap.specs.Desk.{desk};

use crate::Session;
use refusal::{Refusal, bad_size};

pub const MOST_HEADER: usize = 65_535;

pub const MOST_BODY: usize = 1_048_576;

const MOST_PAIRS: u32 = 65_535;

const MOST_CALLS: u64 = 540_991_427;

pub fn is_full(pairs: u32, calls: u64, ceiling: u64) -> bool
    ensures { result ≡ full ceiling pairs calls }
{
    MOST_PAIRS <= pairs || ceiling < calls
}

// ---- the rows in their order, for sessions of any kind

// The rows of an open; `rate` says that its rate is bad.
#[tactic(auto, using(refusal::proofs::Rows::rows))]
pub fn of_settings(rate: bool, key: usize, tag: usize) -> Result<(), Refusal>
    ensures { told result ≡ first (open_rows rate key tag) }
{
    if rate {
        return Err(Refusal::BadRate);
    }
    if bad_size(key) {
        return Err(Refusal::BadKey);
    }
    if bad_size(tag) {
        return Err(Refusal::BadTagLength);
    }
    Ok(())
}

// A session's own rows, by what is found of its rate, of its tag length, and of its pairs and calls.
#[tactic(auto, using(refusal::proofs::Rows::rows))]
pub fn of_own(rate: bool, tag: bool, full: bool) -> Result<(), Refusal>
    ensures { told result ≡ first (own_rows rate tag full) }
{
    if rate {
        return Err(Refusal::BadRate);
    }
    if tag {
        return Err(Refusal::BadTagLength);
    }
    if full {
        return Err(Refusal::Full);
    }
    Ok(())
}

// The rows of a pair behind a session's own: `own` is what those came to, and `short` says that the output lacks room.
#[tactic(auto, using(refusal::proofs::Rows::rows))]
pub fn of_parts(
    own: Result<(), Refusal>,
    header: usize,
    body: usize,
    short: bool,
) -> Result<(), Refusal>
    ensures { told result ≡ by (told own) (told own) (first (part_rows header body ++ (short, 6) ∷ [])) }
{
    own?;
    if MOST_HEADER < header {
        return Err(Refusal::LongHeader);
    }
    if MOST_BODY < body {
        return Err(Refusal::LongBody);
    }
    if short {
        return Err(Refusal::NoRoom);
    }
    Ok(())
}

// The same by numbers, behind rows that came to any number: 0 passes them, and another is the answer.
#[tactic(auto, using(refusal::proofs::Rows::rows))]
pub fn of_pair(own: u8, header: usize, body: usize, short: bool) -> u8
    ensures { result ≡ by own own (first (part_rows header body ++ (short, 6) ∷ [])) }
{
    if own != 0 {
        return own;
    }
    refusal::number(of_parts(Ok(()), header, body, short))
}

// ---- of the desk's sessions

// A row of the desk's kind; `duplex` tests the same rates for a definition of its own.
fn bad_rate(rate: u16) -> bool
    ensures { result ≡ bad_rate desk.rates rate }
{
    rate != 168 && rate != 136
}

pub fn of_open(key: usize, rate: u16, tag: u16) -> Result<(), Refusal>
    ensures { told result ≡ open_refusal desk key rate tag }
{
    of_settings(bad_rate(rate), key, tag as usize)
}

// The rows of a session itself. The caller says whether the rate and the tag length are ones it takes: a wrap takes every good one, and a
// bundle only its own.
pub fn of_session(s: Session, rate: bool, tag: bool) -> Result<(), Refusal>
    ensures { told result ≡ first (rows_of desk.ceiling s rate tag) }
{
    of_own(rate, tag, is_full(s.pairs, s.calls, MOST_CALLS))
}

pub fn of_wrap(s: Session, header: usize, body: usize, out: usize) -> Result<(), Refusal>
    ensures { told result ≡ wrap_refusal desk s header body out }
{
    let tag = s.tag as usize;
    let own = of_session(s, bad_rate(s.rate), bad_size(tag));
    of_parts(own, header, body, refusal::is_short(out, body, tag))
}

// The rows of an unwrap that come before its tag's.
pub fn of_unwrap(s: Session, header: usize, body: usize, out: usize) -> Result<(), Refusal>
    ensures { told result ≡ first (ready_rows desk s header body out) }
{
    let own = of_session(s, bad_rate(s.rate), bad_size(s.tag as usize));
    of_parts(own, header, body, out < body)
}
