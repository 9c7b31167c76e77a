// The running session, advanced where it stands: thin functions over the calls that take a session and hand one back, two as document 01
// asks for them.
#![tactic(auto)]

ghost use Rattle.std.specs.Prelude.{◌≡◌};
ghost use Rattle.spongewrap.specs.Sessions.{answer_of, seen, wraps, unwraps};
ghost use Rattle.spongewrap.specs.Desk.{desk};
ghost use Rattle.running.specs.Answers.{left};

use refusal::Refusal;
use spongewrap::{Refused, Session};

// Puts the session of a call's answer behind the reference: the next one, or the one that a refusal hands back.
fn store(answer: Result<Session, Refused>, s: &mut Session) -> Result<(), Refusal>
    ensures { left result s.new ≡ answer_of answer }
{
    match answer {
        Ok(next) => {
            *s = next;
            Ok(())
        }
        Err(refused) => {
            *s = refused.session;
            Err(refused.refusal)
        }
    }
}

// Seals a pair and leaves the next session behind the reference. A refusal leaves the session as it was.
pub fn wrap_in_place(
    s: &mut Session,
    header: &[u8],
    body: &[u8],
    out: &mut [u8],
) -> Result<(), Refusal>
    ensures { seen (left result s.new) out.new ≡ wraps desk s.old header.now body.now out.old }
{
    store(spongewrap::wrap(*s, header, body, out), s)
}

// Opens a pair and leaves the next session behind the reference. A refusal leaves the session as it was.
pub fn unwrap_in_place(
    s: &mut Session,
    header: &[u8],
    cipher: &[u8],
    tag: &[u8],
    out: &mut [u8],
) -> Result<(), Refusal>
    ensures { seen (left result s.new) out.new ≡ unwraps desk s.old header.now cipher.now tag.now out.old }
{
    store(spongewrap::unwrap(*s, header, cipher, tag, out), s)
}

// The answer of a call in place as one that hands its session back.
fn handed_back(answer: Result<(), Refusal>, session: Session) -> Result<Session, Refused>
    ensures { answer_of result ≡ left answer session }
{
    match answer {
        Ok(()) => Ok(session),
        Err(refusal) => Err(Refused { refusal, session }),
    }
}

// The same for a caller that holds its session as a value: `wrap_in_place` advances it where it stands, and it is handed back.
pub fn wrap_lent(
    mut s: Session,
    header: &[u8],
    body: &[u8],
    out: &mut [u8],
) -> Result<Session, Refused>
    ensures { seen (answer_of result) out.new ≡ wraps desk s header.now body.now out.old }
{
    let answer = wrap_in_place(&mut s, header, body, out);
    handed_back(answer, s)
}

// `unwrap_in_place` for a caller that holds its session as a value. The twins stay two: one function over a closure would have to say what the
// closure writes to the lent output, and it is no plainer.
pub fn unwrap_lent(
    mut s: Session,
    header: &[u8],
    cipher: &[u8],
    tag: &[u8],
    out: &mut [u8],
) -> Result<Session, Refused>
    ensures { seen (answer_of result) out.new ≡ unwraps desk s header.now cipher.now tag.now out.old }
{
    let answer = unwrap_in_place(&mut s, header, cipher, tag, out);
    handed_back(answer, s)
}
