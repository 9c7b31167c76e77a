// The pairs of the file of sessions: each is read part by part, sealed by its session, and opened by the same.
ghost use Rattle.std.specs.Prelude.{◌≡◌, []};

use crate::text::{ROOM, Text};
use spongewrap::Session;

// No ciphertext with its tag, and no body, of the file has more bytes.
const MOST: usize = 1024;

// The parts of a pair as far as they are read.
#[derive(Drop)]
pub struct Pair {
    header: Text<ROOM>,
    body: Text<ROOM>,
    cipher: Text<ROOM>,
    tag: Text<ROOM>,
}

// The session after it has sealed a pair into an output; none where that does not hold the ciphertext and the tag, and nothing more.
fn sealed(
    s: Session,
    header: &[u8],
    body: &[u8],
    cipher: &[u8],
    tag: &[u8],
    out: &mut [u8],
) -> Option<Session> {
    let next = spongewrap::wrap(s, header, body, out).ok()?;
    let (front, end) = out.split_at_checked(cipher.len())?;
    if front == cipher && end == tag {
        Some(next)
    } else {
        None
    }
}

// Whether a pair opens into an output that then holds its body, and nothing more.
fn opens(
    s: Session,
    header: &[u8],
    cipher: &[u8],
    tag: &[u8],
    body: &[u8],
    out: &mut [u8],
) -> bool {
    let answer = spongewrap::unwrap(s, header, cipher, tag, out);
    answer.is_ok() && &out[..] == body
}

impl Pair {
    // Nothing read yet.
    pub(crate) fn empty() -> Pair
        ensures { (result.header ≡ []) × (result.body ≡ []) × (result.cipher ≡ []) × (result.tag ≡ []) }
    {
        Pair {
            header: Text::empty(),
            body: Text::empty(),
            cipher: Text::empty(),
            tag: Text::empty(),
        }
    }

    // Reads one more line. The tag is the last part: answers whether the line ends the pair.
    pub(crate) fn read(&mut self, line: &[u8]) -> bool {
        self.header.read(line, b"Header =");
        self.body.read(line, b"Body =");
        self.cipher.read(line, b"Cipher =");
        self.tag.read(line, b"Tag =")
    }

    // The session after the pair, which it seals and opens again; none where something differs.
    pub(crate) fn passed(&self, s: Session) -> Option<Session> {
        let header = self.header.bytes();
        let body = self.body.bytes();
        let cipher = self.cipher.bytes();
        let tag = self.tag.bytes();
        let mut room = [0u8; MOST];
        let mut other = [0u8; MOST];
        let out = room.get_mut(..cipher.len() + tag.len())?;
        let again = other.get_mut(..body.len())?;
        let after = sealed(s, header, body, cipher, tag, out)?;
        if opens(s, header, cipher, tag, body, again) {
            Some(after)
        } else {
            None
        }
    }
}
