// Starting a bundle, and adding to it in place.
ghost use Rattle.std.specs.Prelude.{◌≡◌, ◌+◌, ◌≤◌, [], length, IfOk, IfSome};
ghost use Rattle.std.proofs.lemmas.List.Edits.{sets};
ghost use Rattle.refusal.specs.Numbers.{told};
ghost use Rattle.spongewrap.specs.Sessions.{next};
ghost use Rattle.spongewrap.specs.Desk.{desk};
ghost use Rattle.spongewrap.specs.Refusals.{most_header, most_body};
ghost use Rattle.bundle.specs.Format.{version1, most, front_of, entry_of, size};
ghost use Rattle.bundle.specs.Answers.{refused, check_told, session_reply, seen};
ghost use Rattle.bundle.specs.Writing.{Ready, start_table, bundle_of, starts, end_of, end_in, end_with, buffer_table, add_table, with_entry, adds};

use crate::{Fault, Refused, format, own_refusal};
use fields::Number;
use refusal::Refusal;
use spongewrap::{Session, orders};

// Writes what stands before an entry's ciphertext: the two lengths and the header. Answers the ciphertext's place.
#[tactic(auto, using(crate::proofs::Stores::front_written))]
fn write_front(header: &[u8], body: usize, bundle: &mut [u8], place: usize) -> usize
    requires { (length header.now ≤ most_header) × (body ≤ most_body) × (place + 6 + length header.now ≤ length bundle.old) }
    ensures { (result ≡ place + 6 + length header.now) × (bundle.new ≡ sets bundle.old place (front_of header.now body)) }
{
    (header.len() as u16).put(bundle, place);
    (body as u32).put(bundle, place + 2);
    let start = place + format::LENGTHS;
    fields::put_string(bundle, start, header);
    start + header.len()
}

// Writes an entry at a place. The pair is sealed where it stands: one part of the bundle, from the ciphertext through
// the tag, is lent on. What is ready is not refused, so there is a session to unwrap.
fn write_entry(s: Session, header: &[u8], body: &[u8], bundle: &mut [u8], place: usize) -> Session
    requires { Ready version1 s (length header.now) (length body.now) × (place + size version1 (length header.now) (length body.now) ≤ length bundle.old) }
    ensures { (result ≡ next desk s header.now body.now) × (bundle.new ≡ sets bundle.old place (entry_of s header.now body.now)) }
{
    let cipher = write_front(header, body.len(), bundle, place);
    let end = cipher + body.len() + format::TAG;
    spongewrap::wrap(s, header, body, &mut bundle[cipher..end]).unwrap()
}

// The refusals of a start, by the lengths of its label and buffer. Each carries place 0.
#[tactic(auto, using(crate::proofs::Tables::tables), unfolding(crate::specs::Writing::start_table))]
fn start_refusal(s: Session, label: usize, room: usize) -> Result<(), Refusal>
    ensures { refused (told result) 0 ≡ start_table version1 s label room }
{
    own_refusal(s)?;
    if format::bad_label(label) {
        return Err(Refusal::NoLabel);
    }
    if room < format::FIRST + format::entry_size(label, 0) {
        return Err(Refusal::NoRoom);
    }
    Ok(())
}

// Writes the version, the length, and entry zero with its label.
#[tactic(auto, using(crate::proofs::Stores::first_written))]
fn write_first(s: Session, label: &[u8], bundle: &mut [u8]) -> Session
    requires { Ready version1 s (length label.now) 0 × (5 + size version1 (length label.now) 0 ≤ length bundle.old) }
    ensures { (result ≡ next desk s label.now []) × (bundle.new ≡ sets bundle.old 0 (bundle_of version1 s label.now)) }
{
    bundle[0] = format::VERSION;
    (format::entry_size(label.len(), 0) as u32).put(bundle, 1);
    write_entry(s, label, b"", bundle, format::FIRST)
}

// Starts a bundle (document 01, "Bundle, version 1": Start).
#[tactic(auto, using(crate::proofs::Stores::start_rules))]
pub fn start(s: Session, label: &[u8], bundle: &mut [u8]) -> Result<Session, Refused>
    ensures { seen (session_reply result) bundle.new ≡ starts version1 s label.now bundle.old }
{
    match start_refusal(s, label.len(), bundle.len()) {
        Ok(()) => Ok(write_first(s, label, bundle)),
        Err(refusal) => Err(Refused {
            fault: refusal.into(),
            session: s,
        }),
    }
}

// Where the bundle in a buffer ends, by its stated length; none where that is past the buffer.
#[tactic(auto, using(crate::proofs::Tables::tables), unfolding(crate::specs::Writing::end_in))]
pub fn end_of(bundle: &[u8]) -> Option<usize>
    ensures stated { result ≡ end_in bundle.now }
    ensures within { IfSome result (λ end. end ≤ length bundle.now) }
{
    if bundle.len() < format::FIRST {
        return None;
    }
    let end = format::FIRST + u32::read(bundle, 1) as usize;
    if bundle.len() < end {
        return None;
    }
    Some(end)
}

// The refusals of an add, by the lengths of its header and body; else the place of the new entry. Of the buffer, the first five bytes are read.
#[tactic(auto, using(crate::proofs::Tables::tables), unfolding(crate::specs::Writing::add_table))]
fn add_place(s: Session, bundle: &[u8], header: usize, body: usize) -> Result<usize, Fault>
    ensures told { check_told result ≡ add_table version1 s bundle.now header body }
    ensures place { IfOk result (λ place. place ≡ end_of bundle.now) }
{
    own_refusal(s)?;
    if orders::MOST_HEADER < header {
        return Err(Refusal::LongHeader.into());
    }
    if orders::MOST_BODY < body {
        return Err(Refusal::LongBody.into());
    }
    buffer_place(bundle, header, body)
}

// The buffer's own first bytes, and then the room that an entry more would take.
#[tactic(auto, using(crate::proofs::Stores::buffer_rules), unfolding(crate::specs::Writing::buffer_table))]
fn buffer_place(bundle: &[u8], header: usize, body: usize) -> Result<usize, Fault>
    requires { (header ≤ most_header) × (body ≤ most_body) }
    ensures told { check_told result ≡ buffer_table version1 bundle.now header body }
    ensures place { IfOk result (λ place. place ≡ end_of bundle.now) }
{
    let room = bundle.len();
    if room < format::FIRST {
        return Err(Refusal::Malformed.into());
    }
    if bundle[0] != format::VERSION {
        return Err(Refusal::OtherVersion.into());
    }
    let Some(end) = end_of(bundle) else {
        return Err(Fault {
            refusal: Refusal::Malformed,
            place: 1,
        });
    };
    let raised = end + format::entry_size(header, body);
    if room < raised || format::MOST_BYTES < raised {
        return Err(Refusal::NoRoom.into());
    }
    Ok(end)
}

// Writes an entry at the stated end of the bundle, and raises the stated length.
#[tactic(auto, using(crate::proofs::Stores::last_written))]
fn write_last(s: Session, header: &[u8], body: &[u8], bundle: &mut [u8], end: usize) -> Session
    requires ready { Ready version1 s (length header.now) (length body.now) }
    requires stated { end ≡ end_of bundle.old }
    requires room { end_with version1 bundle.old (length header.now) (length body.now) ≤ length bundle.old }
    requires bytes { end_with version1 bundle.old (length header.now) (length body.now) ≤ most }
    ensures { (result ≡ next desk s header.now body.now) × (bundle.new ≡ with_entry version1 s header.now body.now bundle.old) }
{
    let raised = end + format::entry_size(header.len(), body.len());
    let session = write_entry(s, header, body, bundle, end);
    ((raised - format::FIRST) as u32).put(bundle, 1);
    session
}

// Adds an entry to the bundle (document 01, "Bundle, version 1": Add). All other bytes stand.
#[tactic(auto, using(crate::proofs::Stores::add_rules))]
pub fn add(s: Session, header: &[u8], body: &[u8], bundle: &mut [u8]) -> Result<Session, Refused>
    ensures { seen (session_reply result) bundle.new ≡ adds version1 s header.now body.now bundle.old }
{
    match add_place(s, bundle, header.len(), body.len()) {
        Ok(end) => Ok(write_last(s, header, body, bundle, end)),
        Err(fault) => Err(Refused { fault, session: s }),
    }
}
