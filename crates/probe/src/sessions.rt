// Sessions that travel as images: what the desks' own exports leave out.
ghost use Rattle.std.specs.Prelude.{◌≡◌, []};
ghost use Rattle.spongewrap.specs.Desk.{desk, default_rate, default_tag};
ghost use Rattle.spongewrap.specs.Sessions as sessions;
ghost use Rattle.spongewrap.specs.Sessions.{answer_of, opens, wraps, unwraps};
ghost use Rattle.image.specs.Image.{image_length, image_of, session_of};
ghost use Rattle.image.specs.Calls.{seen, sized, opens_image};
ghost use Rattle.probe.specs.Sessions.{of_session};

use refusal::Refusal;
use spongewrap::{Refused, Session};

// A session's answer by its number; a bundle's, which has a place besides, has a function of its own. The session that the call left is laid
// over the image, after a refusal too.
fn put_answer(answer: Result<Session, Refused>, image: &mut [u8; image::LENGTH]) -> u8
    ensures number { result ≡ (answer_of answer).number }
    ensures image { image.new ≡ image_of (answer_of answer).session }
{
    match answer {
        Ok(next) => {
            image::put_session(next, image);
            0
        }
        Err(refused) => {
            image::put_session(refused.session, image);
            u8::from(refused.refusal)
        }
    }
}

// A session opened into an image, at any rate and tag length.
#[unsafe(no_mangle)]
pub extern "C" fn probe_open(rate: u16, tag: u16, key: &[u8], image: &mut [u8]) -> u8
    ensures { seen result image.new [] ≡ opens_image key.now rate tag image.old }
{
    refusal::number(image::open(key, rate, tag, image))
}

// The open that takes no settings. A refused one leaves its session of zeros in the image.
#[tactic(auto, using(image::proofs::Calls::other_length, image::proofs::Calls::right_length))]
#[unsafe(no_mangle)]
pub extern "C" fn probe_default_open(key: &[u8], image: &mut [u8]) -> u8
    ensures { seen result image.new [] ≡ sized image_length image.old [] (of_session (sessions.seen (opens desk key.now default_rate default_tag) [])) }
{
    let Some(image) = image.as_mut_array() else {
        return u8::from(Refusal::NoRoom);
    };
    put_answer(Session::open(key), image)
}

// Seals a pair through the running session. Each call tests its image itself: one function that takes the rest as a closure was tried, and
// nothing is known of the lent output behind it.
#[tactic(auto, using(image::proofs::Calls::other_length, image::proofs::Calls::right_length))]
#[unsafe(no_mangle)]
pub extern "C" fn probe_running_wrap(
    image: &mut [u8],
    header: &[u8],
    body: &[u8],
    out: &mut [u8],
) -> u8
    ensures { seen result image.new out.new ≡ sized image_length image.old out.old (of_session (wraps desk (session_of image.old) header.now body.now out.old)) }
{
    let Some(image) = image.as_mut_array() else {
        return u8::from(Refusal::NoRoom);
    };
    put_answer(
        running::wrap_lent(image::session_of(image), header, body, out),
        image,
    )
}

// Opens a pair through the running session.
#[tactic(auto, using(image::proofs::Calls::other_length, image::proofs::Calls::right_length))]
#[unsafe(no_mangle)]
pub extern "C" fn probe_running_unwrap(
    image: &mut [u8],
    header: &[u8],
    ciphertext: &[u8],
    tag: &[u8],
    body: &mut [u8],
) -> u8
    ensures { seen result image.new body.new ≡ sized image_length image.old body.old (of_session (unwraps desk (session_of image.old) header.now ciphertext.now tag.now body.old)) }
{
    let Some(image) = image.as_mut_array() else {
        return u8::from(Refusal::NoRoom);
    };
    put_answer(
        running::unwrap_lent(image::session_of(image), header, ciphertext, tag, body),
        image,
    )
}
