// Opening the entry at a place.
ghost use Rattle.std.specs.Prelude.{◌≡◌, Ok};
ghost use Rattle.refusal.specs.Rows.{first};
ghost use Rattle.spongewrap.specs.Sessions.{answer_of, seen as unwrapSeen};
ghost use Rattle.bundle.specs.Format.{version1, WholeAt, entry_at};
ghost use Rattle.bundle.specs.Answers.{own, opened_reply, seen};
ghost use Rattle.bundle.specs.Opening.{unwraps_at, opens_entry};

use crate::{Entry, Fault, Opened, Refused, format, own_refusal};
use spongewrap::Session;

// Unwraps the parts of the whole entry at a place.
#[tactic(auto, using(crate::proofs::Openings::parts_lent))]
fn unwrap_at(
    s: Session,
    bundle: &[u8],
    place: usize,
    entry: Entry,
    out: &mut [u8],
) -> Result<Session, spongewrap::Refused>
    requires { WholeAt version1 bundle.now place entry }
    ensures { unwrapSeen (answer_of result) out.new ≡ unwraps_at version1 s bundle.now place out.old }
{
    let start = place + format::LENGTHS;
    let cipher = start + entry.header;
    let tag = cipher + entry.body;
    spongewrap::unwrap(
        s,
        &bundle[start..cipher],
        &bundle[cipher..tag],
        &bundle[tag..entry.next],
        out,
    )
}

// Opens the whole entry at a place, past the checks of session and entry. A refusal carries the place that was asked for.
#[tactic(auto, using(crate::proofs::Entries::whole_at))]
fn open_whole(
    s: Session,
    bundle: &[u8],
    place: usize,
    entry: Entry,
    out: &mut [u8],
) -> Result<Opened, Refused>
    requires { (first (own version1 s) ≡ 0) × (entry_at version1 bundle.now place ≡ Ok entry) }
    ensures { seen (opened_reply result) out.new ≡ opens_entry version1 s bundle.now place out.old }
{
    match unwrap_at(s, bundle, place, entry, out) {
        Ok(session) => Ok(Opened {
            next: entry.next,
            session,
        }),
        Err(refused) => Err(Refused {
            fault: Fault {
                refusal: refused.refusal,
                place,
            },
            session: refused.session,
        }),
    }
}

// Opens the entry at a place (document 01, "Bundle, version 1"): its body goes to the first bytes of `out`, and the answer says where the next entry stands.
// A refusal carries the place that was asked for.
#[tactic(auto, using(crate::proofs::Openings::open_rules))]
pub fn open_entry(
    s: Session,
    bundle: &[u8],
    place: usize,
    out: &mut [u8],
) -> Result<Opened, Refused>
    ensures { seen (opened_reply result) out.new ≡ opens_entry version1 s bundle.now place out.old }
{
    if let Err(refusal) = own_refusal(s) {
        return Err(Refused {
            fault: Fault { refusal, place },
            session: s,
        });
    }
    match format::entry_at(bundle, place) {
        Ok(entry) => open_whole(s, bundle, place, entry, out),
        Err(cause) => Err(Refused {
            fault: cause.at(place),
            session: s,
        }),
    }
}
