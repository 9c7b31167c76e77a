// The desk: a bundle is surveyed and opened entry by entry, and what is damaged is refused.
ghost use Rattle.std.specs.Prelude.{◌≡◌, ◌-◌};
ghost use Rattle.bundle.specs.Format.{version1};
ghost use Rattle.bundle.specs.Survey.{surveys};
ghost use Rattle.bundle.specs.Answers.{opened_reply};
ghost use Rattle.frontdesk.specs.Day.{surveyed, whole_header, opens_at, opens_from, opens_labelled, opens_bundle};

use crate::{DOT, ROOM, lines, office};
use bundle::{Opened, Refused};
use spongewrap::Session;

// Surveys a bundle, and prints what is found. Answers the number of entries, none where the survey refuses.
pub fn survey(rt: &impl Print, bytes: &[u8]) -> Option<usize>
    ensures { result ≡ surveyed (surveys version1 bytes.now) }
{
    match bundle::survey(bytes) {
        Ok(entries) => {
            lines::print_survey(rt, bytes.len(), entries);
            Some(entries)
        }
        Err(fault) => {
            lines::print_no_bundle(rt, fault);
            None
        }
    }
}

// The header of the entry at a place; empty, as its definition has it, where no entry is whole.
#[tactic(auto, using(bundle::proofs::Entries::whole_at))]
fn header_at(bytes: &[u8], place: usize) -> &[u8]
    ensures { result.now ≡ whole_header bytes.now place }
{
    match bundle::entry_at(bytes, place) {
        Ok(entry) => {
            let end = entry.next - bundle::TAG - entry.body;
            &bytes[end - entry.header..end]
        }
        Err(_) => &bytes[..0],
    }
}

// Prints the line of an entry that was opened into `out`, or refused.
fn show(
    rt: &impl Print,
    answer: Result<Opened, Refused>,
    entry: u32,
    bytes: &[u8],
    place: usize,
    out: &[u8],
) {
    let Ok(found) = bundle::entry_at(bytes, place) else {
        lines::print_no_entry(rt, place);
        return;
    };
    let calls = left(answer).session.calls;
    lines::print_entry(
        rt,
        entry.into(),
        place,
        header_at(bytes, place),
        found.body,
        calls,
    );
    lines::print_outcome(
        rt,
        answer.err().map(|refused| refused.fault.refusal),
        out,
        found.body,
    );
}

// What an opening left. A refused one left the session that it took, and no next place: 0.
fn left(answer: Result<Opened, Refused>) -> Opened {
    match answer {
        Ok(opened) => opened,
        Err(refused) => Opened {
            next: 0,
            session: refused.session,
        },
    }
}

// Opens the entry at a place, and prints its line.
fn open_at(rt: &impl Print, s: Session, bytes: &[u8], place: usize) -> Result<Opened, Refused>
    ensures { opened_reply result ≡ opens_at s bytes.now place }
{
    let mut out = [DOT; ROOM];
    let answer = bundle::open_entry(s, bytes, place, &mut out);
    show(rt, answer, s.pairs, bytes, place, &out);
    answer
}

// Opens the entries after entry zero, from a place on, each by the session that the last one left.
fn open_from(rt: &impl Print, s: Session, bytes: &[u8], first: usize, entries: usize) -> Session
    ensures { result ≡ opens_from (entries - 1) s bytes.now first }
{
    let mut session = s;
    let mut place = first;
    for _ in 1..entries {
        match open_at(rt, session, bytes, place) {
            Ok(opened) => {
                session = opened.session;
                place = opened.next;
            }
            Err(refused) => return refused.session,
        }
    }
    lines::print_open(rt, session.calls);
    session
}

// Opens a bundle of so many entries: entry zero first, and the others only under the label that is expected.
pub fn open(rt: &impl Print, key: &[u8], label: &[u8], bytes: &[u8], entries: usize) -> Session
    ensures { result ≡ opens_bundle key.now label.now bytes.now entries }
{
    lines::print_opening(rt);
    match open_at(rt, office::open_session(key), bytes, bundle::FIRST) {
        Ok(zero) => open_rest(rt, zero, label, bytes, entries),
        Err(refused) => refused.session,
    }
}

// Goes on from entry zero, if its header is the label that is expected.
fn open_rest(rt: &impl Print, zero: Opened, label: &[u8], bytes: &[u8], entries: usize) -> Session
    ensures { result ≡ opens_labelled zero label.now bytes.now entries }
{
    if compare::is_same(header_at(bytes, bundle::FIRST), label) {
        lines::print_label(rt);
        return open_from(rt, zero.session, bytes, zero.next, entries);
    }
    lines::print_other_label(rt);
    zero.session
}

// Shows, of the session that entry 1 left, that entry 2 is refused with a changed tag, that entry 3 is refused in its place, and that
// the session which these hand back opens entry 2 as it was sealed.
fn refuse_second(
    rt: &impl Print,
    s: Session,
    sealed: &[u8],
    changed: &[u8],
    place: usize,
    next: usize,
) {
    lines::print_damage(rt);
    let damaged = left(open_at(rt, s, changed, place));
    lines::print_shift(rt);
    let shifted = left(open_at(rt, damaged.session, sealed, next));
    lines::print_mended(rt);
    let _ = open_at(rt, shifted.session, sealed, place);
}

// Opens entries 0 and 1 again, and changes the last byte of entry 2, which its tag ends with.
#[tactic(auto, using(bundle::proofs::Entries::whole_at))]
pub fn refuse(rt: &impl Print, key: &[u8], sealed: [u8; 512]) {
    lines::print_again(rt);
    let zero = left(open_at(rt, office::open_session(key), &sealed, bundle::FIRST));
    let one = left(open_at(rt, zero.session, &sealed, zero.next));
    let Ok(entry) = bundle::entry_at(&sealed, one.next) else {
        return;
    };
    let mut changed = sealed;
    changed[entry.next - 1] ^= 1;
    refuse_second(rt, one.session, &sealed, &changed, one.next, entry.next);
}
