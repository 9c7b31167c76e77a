// The office: a bundle is started with a label, and members are added.
ghost use Rattle.std.specs.Prelude.{◌≡◌, ◌≤◌, length, take};
ghost use Rattle.bundle.specs.Format.{version1};
ghost use Rattle.bundle.specs.Answers.{session_reply, seen};
ghost use Rattle.bundle.specs.Writing.{starts, adds};
ghost use Rattle.frontdesk.specs.Day.{bundle_session, left, bundle_end};

use crate::lines;
use bundle::Refused;
use spongewrap::Session;

// A new session from a key, with a bundle's settings. A refused key gives a session that every call refuses.
pub fn open_session(key: &[u8]) -> Session
    ensures { result ≡ bundle_session key.now }
{
    match spongewrap::open(key, bundle::RATE, bundle::TAG as u16) {
        Ok(session) => session,
        Err(refused) => refused.session,
    }
}

// The session that a call left: the next one, or where it was refused the one that it took. Openings and sessions have an answer of their
// own, and so a match of their own.
pub fn left(answer: Result<Session, Refused>) -> Session
    ensures { result ≡ left answer }
{
    match answer {
        Ok(session) => session,
        Err(refused) => refused.session,
    }
}

// Prints the line of an entry that was sealed at a place.
fn show(
    rt: &impl Print,
    answer: Result<Session, Refused>,
    entry: u32,
    place: usize,
    header: &[u8],
    body: usize,
) {
    lines::print_entry(rt, entry.into(), place, header, body, left(answer).calls);
    lines::print_sealed(rt, answer.err().map(|refused| refused.fault.refusal));
}

// Starts a bundle by a new session, and prints the line of its label.
pub fn start(
    rt: &impl Print,
    key: &[u8],
    label: &[u8],
    bytes: &mut [u8],
) -> Result<Session, Refused>
    ensures { seen (session_reply result) bytes.new ≡ starts version1 (bundle_session key.now) label.now bytes.old }
{
    lines::print_sealing(rt, key.len());
    let answer = bundle::start(open_session(key), label, bytes);
    show(rt, answer, 0, bundle::FIRST, label, 0);
    answer
}

// Adds an entry, and prints its line.
pub fn add(
    rt: &impl Print,
    s: Session,
    header: &[u8],
    body: &[u8],
    bytes: &mut [u8],
) -> Result<Session, Refused>
    ensures { seen (session_reply result) bytes.new ≡ adds version1 s header.now body.now bytes.old }
{
    let place = end_of(&bytes[..]);
    let answer = bundle::add(s, header, body, bytes);
    show(rt, answer, s.pairs, place, header, body.len());
    answer
}

// Where the bundle in a buffer ends; 0 where no bundle stands there, as its line is printed.
fn end_of(buffer: &[u8]) -> usize
    ensures stated { result ≡ bundle_end buffer.now }
    ensures within { result ≤ length buffer.now }
{
    bundle::end_of(buffer).unwrap_or(0)
}

// The bundle that a buffer holds.
pub fn bundle_in(buffer: &[u8]) -> &[u8]
    ensures { result.now ≡ take (bundle_end buffer.now) buffer.now }
{
    &buffer[..end_of(buffer)]
}
