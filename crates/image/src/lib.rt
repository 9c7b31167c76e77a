// A session as an image of 216 bytes, in which it travels between a desk's calls, and the calls over it.
#![tactic(auto)]

ghost use Rattle.std.specs.Prelude.{◌≡◌, []};
ghost use Rattle.refusal.specs.Rows.{by};
ghost use Rattle.refusal.specs.Numbers.{told};
ghost use Rattle.spongewrap.specs.Sessions.{answer_of};
ghost use Rattle.image.specs.Image.{image_of, session_of};
ghost use Rattle.image.specs.Calls.{seen, opens_image, wraps_image, unwraps_image};

use fields::Number;
use refusal::Refusal;
use spongewrap::{Refused, Session};

// How many bytes an image has.
pub const LENGTH: usize = 216;

// Where its numbers stand, behind the 200 bytes of the state.
const RATE_PLACE: usize = 200;

const TAG_PLACE: usize = 202;

const PAIRS_PLACE: usize = 204;

const CALLS_PLACE: usize = 208;

// The session that an image holds. It is no `From`: neither a session nor an array is this crate's own type.
pub fn session_of(image: &[u8; LENGTH]) -> Session
    ensures { result ≡ session_of image.now }
{
    Session {
        lanes: sponge::mixed([0u64; 25], &image[..RATE_PLACE]),
        rate: u16::read(image, RATE_PLACE),
        tag: u16::read(image, TAG_PLACE),
        pairs: u32::read(image, PAIRS_PLACE),
        calls: u64::read(image, CALLS_PLACE),
    }
}

// A session laid over a whole image.
pub fn put_session(s: Session, image: &mut [u8; LENGTH])
    ensures { image.new ≡ image_of s }
{
    sponge::put_bytes(s.lanes, &mut image[..RATE_PLACE]);
    s.rate.put(image, RATE_PLACE);
    s.tag.put(image, TAG_PLACE);
    s.pairs.put(image, PAIRS_PLACE);
    s.calls.put(image, CALLS_PLACE);
}

// A call's answer: on success the new session is laid over the image, and a refusal leaves it.
fn store_answer(answer: Result<Session, Refused>, image: &mut [u8; LENGTH]) -> Result<(), Refusal>
    ensures number { told result ≡ (answer_of answer).number }
    ensures image { image.new ≡ by (answer_of answer).number image.old (image_of (answer_of answer).session) }
{
    put_session(answer?, image);
    Ok(())
}

// Opens a session into an image.
#[tactic(auto, using(crate::proofs::Calls::other_length), unfolding(crate::specs::Calls::opens_image))]
pub fn open(key: &[u8], rate: u16, tag: u16, image: &mut [u8]) -> Result<(), Refusal>
    ensures { seen (told result) image.new [] ≡ opens_image key.now rate tag image.old }
{
    let image = image.as_mut_array::<LENGTH>().ok_or(Refusal::NoRoom)?;
    store_answer(spongewrap::open(key, rate, tag), image)
}

// Seals a pair with the session that an image holds.
#[tactic(auto, using(crate::proofs::Calls::other_length), unfolding(crate::specs::Calls::wraps_image))]
pub fn wrap(image: &mut [u8], header: &[u8], body: &[u8], out: &mut [u8]) -> Result<(), Refusal>
    ensures { seen (told result) image.new out.new ≡ wraps_image image.old header.now body.now out.old }
{
    let image = image.as_mut_array::<LENGTH>().ok_or(Refusal::NoRoom)?;
    store_answer(
        spongewrap::wrap(session_of(image), header, body, out),
        image,
    )
}

// Opens a pair with the session that an image holds.
#[tactic(auto, using(crate::proofs::Calls::other_length), unfolding(crate::specs::Calls::unwraps_image))]
pub fn unwrap(
    image: &mut [u8],
    header: &[u8],
    cipher: &[u8],
    tag: &[u8],
    body: &mut [u8],
) -> Result<(), Refusal>
    ensures { seen (told result) image.new body.new ≡ unwraps_image image.old header.now cipher.now tag.now body.old }
{
    let image = image.as_mut_array::<LENGTH>().ok_or(Refusal::NoRoom)?;
    store_answer(
        spongewrap::unwrap(session_of(image), header, cipher, tag, body),
        image,
    )
}
