// Bundles: each answer in one number.
ghost use Rattle.std.specs.Prelude.{◌≡◌, []};
ghost use Rattle.refusal.specs.Numbers.{number_of};
ghost use Rattle.spongewrap.specs.Sessions.{cost};
ghost use Rattle.bundle.specs.Format.{version1, bundle_rate, entry_at};
ghost use Rattle.bundle.specs.Answers.{opened_reply, session_reply};
ghost use Rattle.bundle.specs.Survey.{surveys};
ghost use Rattle.bundle.specs.Opening.{opens_entry};
ghost use Rattle.bundle.specs.Writing.{starts, adds};
ghost use Rattle.image.specs.Image.{image_length, image_of, session_of};
ghost use Rattle.image.specs.Calls.{seen, sized};
ghost use Rattle.probe.specs.Bundles.{packed, packed_told, packed_answer, of_entry, of_bundle};

use bundle::{Fault, NoEntry, Opened, Refused};
use fields::Number;
use refusal::Refusal;
use spongewrap::Session;

// How many bytes an entry's three numbers have.
const ENTRY: usize = 24;

// A number and a place in one: the place stands above the low byte, less what does not fit there.
fn pack(number: u8, place: usize) -> u64
    ensures { result ≡ packed number place }
{
    u64::from(number) + place as u64 % 0x0100_0000_0000_0000 * 0x100
}

// A refusal with its place.
fn pack_fault(fault: Fault) -> u64
    ensures { result ≡ packed (number_of fault.refusal) fault.place }
{
    pack(u8::from(fault.refusal), fault.place)
}

// A refusal with its place, or where the call is accepted the next entry's. The session that the call left is laid over the image, after a
// refusal too.
#[tactic(auto, using(refusal::proofs::Rows::kept, refusal::proofs::Numbers::numbered_refusal), unfolding(refusal::specs::Rows::by))]
fn put_opened(answer: Result<Opened, Refused>, image: &mut [u8; image::LENGTH]) -> u64
    ensures packed { result ≡ packed_answer (opened_reply answer) }
    ensures image { image.new ≡ image_of (opened_reply answer).session }
{
    match answer {
        Ok(opened) => {
            image::put_session(opened.session, image);
            pack(0, opened.next)
        }
        Err(refused) => {
            image::put_session(refused.session, image);
            pack_fault(refused.fault)
        }
    }
}

// The same for a call that names no next entry: 0 stands in its place.
fn put_answer(answer: Result<Session, Refused>, image: &mut [u8; image::LENGTH]) -> u64
    ensures packed { result ≡ packed_answer (session_reply answer) }
    ensures image { image.new ≡ image_of (session_reply answer).session }
{
    put_opened(answer.map(|session| Opened { next: 0, session }), image)
}

#[unsafe(no_mangle)]
pub extern "C" fn probe_survey(bundle: &[u8]) -> u64
    ensures { result ≡ packed_told (surveys version1 bundle.now) }
{
    match bundle::survey(bundle) {
        Ok(count) => pack(0, count),
        Err(fault) => pack_fault(fault),
    }
}

// The entry at a place: its header's length, its body's and the next place go to `entry`, eight bytes each, big-endian.
// Answers 0, or where there is none 1, 2 or 3 for its three causes in the order of the survey.
#[tactic(auto, using(image::proofs::Calls::other_length, image::proofs::Calls::right_length))]
#[unsafe(no_mangle)]
pub extern "C" fn probe_entry_at(bundle: &[u8], place: u64, entry: &mut [u8]) -> u8
    ensures { seen result entry.new [] ≡ sized 24 entry.old [] (of_entry entry.old (entry_at version1 bundle.now place)) }
{
    let Some(entry) = entry.as_mut_array::<ENTRY>() else {
        return u8::from(Refusal::NoRoom);
    };
    match bundle::entry_at(bundle, place as usize) {
        Ok(whole) => {
            (whole.header as u64).put(entry, 0);
            (whole.body as u64).put(entry, 8);
            (whole.next as u64).put(entry, 16);
            0
        }
        Err(NoEntry::Short) => 1,
        Err(NoEntry::Large) => 2,
        Err(NoEntry::Past) => 3,
    }
}

#[unsafe(no_mangle)]
pub extern "C" fn probe_calls_of(header: u64, body: u64) -> u64
    ensures { result ≡ cost bundle_rate version1.tag header body }
{
    bundle::calls_of(header as usize, body as usize)
}

#[tactic(auto, using(image::proofs::Calls::other_length, image::proofs::Calls::right_length))]
#[unsafe(no_mangle)]
pub extern "C" fn probe_open_entry(
    image: &mut [u8],
    bundle: &[u8],
    place: u64,
    body: &mut [u8],
) -> u64
    ensures { seen result image.new body.new ≡ sized image_length image.old body.old (of_bundle (opens_entry version1 (session_of image.old) bundle.now place body.old)) }
{
    let Some(image) = image.as_mut_array() else {
        return Refusal::NoRoom as u64;
    };
    put_opened(
        bundle::open_entry(image::session_of(image), bundle, place as usize, body),
        image,
    )
}

#[tactic(auto, using(image::proofs::Calls::other_length, image::proofs::Calls::right_length))]
#[unsafe(no_mangle)]
pub extern "C" fn probe_start(image: &mut [u8], label: &[u8], bundle: &mut [u8]) -> u64
    ensures { seen result image.new bundle.new ≡ sized image_length image.old bundle.old (of_bundle (starts version1 (session_of image.old) label.now bundle.old)) }
{
    let Some(image) = image.as_mut_array() else {
        return Refusal::NoRoom as u64;
    };
    put_answer(
        bundle::start(image::session_of(image), label, bundle),
        image,
    )
}

#[tactic(auto, using(image::proofs::Calls::other_length, image::proofs::Calls::right_length))]
#[unsafe(no_mangle)]
pub extern "C" fn probe_add(image: &mut [u8], header: &[u8], body: &[u8], bundle: &mut [u8]) -> u64
    ensures { seen result image.new bundle.new ≡ sized image_length image.old bundle.old (of_bundle (adds version1 (session_of image.old) header.now body.now bundle.old)) }
{
    let Some(image) = image.as_mut_array() else {
        return Refusal::NoRoom as u64;
    };
    put_answer(
        bundle::add(image::session_of(image), header, body, bundle),
        image,
    )
}
