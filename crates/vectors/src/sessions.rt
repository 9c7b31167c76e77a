// The file of sessions: each is opened, its pairs are sealed and opened again one after the other, and the state that it comes to is
// compared. A session of the file is one case, which agrees if all of this does.
ghost use Rattle.std.specs.Prelude.{◌≡◌, [], IsTrue, None, Some, codes, eqb};
ghost use Rattle.refusal.specs.Rows.{pick};
ghost use Rattle.spongewrap.specs.Desk.{desk};
ghost use Rattle.spongewrap.specs.Sessions.{opens};
ghost use Rattle.vectors.specs.Bounds.{setting};
ghost use Rattle.vectors.specs.Spelled.{is_named};

use crate::cases::Cases;
use crate::named;
use crate::pairs::Pair;
use crate::text::Text;
use spongewrap::Session;

// What the file states of a session: its settings, and the pairs and calls that it comes to.
#[derive(Clone, Copy, Default)]
struct Stated {
    rate: usize,
    tag: usize,
    pairs: usize,
    calls: usize,
}

impl Stated {
    // Reads one more line.
    fn read(&mut self, line: &[u8]) {
        self.rate = named::number_after(line, b"Rate = ", self.rate);
        self.tag = named::number_after(line, b"TagLength = ", self.tag);
        self.pairs = named::number_after(line, b"Pairs = ", self.pairs);
        self.calls = named::number_after(line, b"Calls = ", self.calls);
    }
}

// A stated rate or tag length; 0, which every open refuses, where it is too large to be one.
#[tactic(auto, using(crate::proofs::Spelled::setting_is))]
fn setting(n: usize) -> u16
    ensures { result ≡ setting n }
{
    u16::try_from(n).unwrap_or(0)
}

// A session from a key and settings; none where the open refuses.
fn opened(key: &[u8], rate: usize, tag: usize) -> Option<Session>
    ensures { result ≡ pick (eqb (opens desk key.now (setting rate) (setting tag)).number 0) (Some (opens desk key.now (setting rate) (setting tag)).session) None }
{
    spongewrap::open(key, setting(rate), setting(tag)).ok()
}

// Whether a session's lanes are the state of a line, in block order.
fn stands_at(s: Session, line: &[u8]) -> bool {
    let mut state = [0u8; 200];
    sponge::put_bytes(s.lanes, &mut state);
    let mut due = Text::<200>::empty();
    due.read(line, b"State =");
    due.bytes() == state.as_slice()
}

// A file as far as it is read: what is stated, the pair and the session that came last. There is no session before the first, and
// none once something of it differed.
#[derive(Drop)]
pub struct Sessions {
    stated: Stated,
    pair: Pair,
    session: Option<Session>,
}

impl Sessions {
    // Nothing read yet.
    pub(crate) fn new() -> Sessions
        ensures { (result.pair.header ≡ []) × (result.pair.body ≡ []) × (result.pair.cipher ≡ []) × (result.pair.tag ≡ []) }
    {
        Sessions {
            stated: Stated::default(),
            pair: Pair::empty(),
            session: None,
        }
    }

    // Whether the session has come to what the file states, and to the state of the line.
    fn ends(&self, line: &[u8]) -> bool {
        let Some(s) = self.session else {
            return false;
        };
        s.pairs as usize == self.stated.pairs
            && s.calls == self.stated.calls as u64
            && stands_at(s, line)
    }

    // The session after a line, which may have its key or end a pair.
    fn moved(&mut self, line: &[u8]) -> Option<Session> {
        let mut key = Text::<256>::empty();
        if key.read(line, b"Key =") {
            return opened(key.bytes(), self.stated.rate, self.stated.tag);
        }
        if self.pair.read(line) {
            return self.pair.passed(self.session?);
        }
        self.session
    }
}

impl Cases for Sessions {
    ghost Ends = { λ line. IsTrue (is_named line (codes "State =")) };

    fn read(&mut self, line: &[u8]) -> Option<bool> {
        if named::is_named(line, b"State =") {
            return Some(self.ends(line));
        }
        self.stated.read(line);
        self.session = self.moved(line);
        None
    }
}
