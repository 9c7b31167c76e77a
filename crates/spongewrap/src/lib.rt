// SpongeWrap sessions (the mode of that name in "Duplexing the sponge"; document 01, "SpongeWrap"): a key opens one, and pairs of a header and a body are sealed and opened in turn.
// Every call answers a session: the advanced one, or beside its refusal the one that it took.
#![tactic(auto)]

pub mod orders; // orders.rt: the limits, and the tests of each call in their order

ghost use Rattle.std.specs.Prelude.{◌≡◌, ◌++◌, ◌+◌, ◌<◌, ◌≤◌, length, drop};
ghost use Rattle.refusal.specs.Rows.{first};
ghost use Rattle.std.specs.Bool.{then_some};
ghost use Rattle.compare.specs.Same.{same};
ghost use Rattle.keccak.specs.Rounds.{f1600};
ghost use Rattle.duplex.specs.Duplex.{drawn, state_after};
ghost use Rattle.duplex.specs.Strings.{blocks, absorbed, sealed, opened};
ghost use Rattle.spongewrap.specs.SpongeWrap.{headed};
ghost use Rattle.refusal.specs.Limits.{most_size};
ghost use Rattle.spongewrap.specs.Refusals.{most_header, most_body, most_pairs, ready_rows, Fits};
ghost use Rattle.spongewrap.specs.Sessions.{answer_of, none, fresh, opens, advanced, next, sealing, tag_of, wraps, unwraps, seen};
ghost use Rattle.spongewrap.specs.Desk.{desk, default_rate, default_tag};

use duplex::Rate;
use refusal::Refusal;

// What a session is: the state, its settings, and how many pairs and permutation calls brought it here.
#[derive(Clone, Copy)]
pub struct Session {
    pub lanes: [u64; 25],
    pub rate: u16,
    pub tag: u16,
    pub pairs: u32,
    pub calls: u64,
}

// What a refused call answers: why, and the session as it was handed in. A refused open has a session of zeros.
// The session stands first, where an accepted answer has its own: behind the refusal it was copied in pieces at each step.
#[derive(Clone, Copy)]
pub struct Refused {
    pub session: Session,
    pub refusal: Refusal,
}

// The refusal alone, for callers that keep the session themselves.
impl From<Refused> for Refusal {
    ghost from_gives = { λ refused refusal. refusal ≡ refused.refusal };

    fn from(refused: Refused) -> Refusal {
        refused.refusal
    }
}

impl Session {
    // What an open that states no settings takes. Bundles and desks name their settings themselves, so that another default moves neither.
    pub const RATE: u16 = 136;

    pub const TAG: u16 = 16;

    // A session from a key, with the default settings.
    pub fn open(key: &[u8]) -> Result<Session, Refused>
        ensures { answer_of result ≡ opens desk key.now default_rate default_tag }
    {
        open(key, Session::RATE, Session::TAG)
    }

    // A refusal, with the session as it is.
    fn refused(self, refusal: Refusal) -> Refused
        ensures { result ≡ record { refusal = refusal; session = self } }
    {
        Refused {
            refusal,
            session: self,
        }
    }
}

// A session from a key, a rate and a tag length (SpongeWrap's initialise). A refused open gives a session of zeros.
pub fn open(key: &[u8], rate: u16, tag: u16) -> Result<Session, Refused>
    ensures { answer_of result ≡ opens desk key.now rate tag }
{
    match orders::of_open(key.len(), rate, tag) {
        Ok(()) => {
            let bytes = rate as usize;
            Ok(fresh(key, Rate { bytes }, tag))
        }
        Err(refusal) => Err(no_session().refused(refusal)),
    }
}

// The session that an accepted open makes: the key's pieces are absorbed and counted.
fn fresh(key: &[u8], rate: Rate, tag: u16) -> Session
    ensures { result ≡ fresh desk rate.bytes tag key.now }
{
    Session {
        lanes: duplex::absorbed([0u64; 25], key, true, false, rate),
        rate: rate.bytes as u16,
        tag,
        pairs: 0,
        calls: block_count(key.len(), rate.bytes),
    }
}

fn no_session() -> Session
    ensures { result ≡ none }
{
    Session {
        lanes: [0u64; 25],
        rate: 0,
        tag: 0,
        pairs: 0,
        calls: 0,
    }
}

// How many blocks n bytes take. The rate stays a number: a `Rate` would ask more of callers than room for a byte.
pub fn block_count(n: usize, rate: usize) -> u64
    requires { 1 < rate }
    ensures { (result ≡ blocks rate n) × (result ≤ n + 1) }
{
    if n == 0 {
        return 1;
    }
    ((n - 1) / (rate - 1)) as u64 + 1
}

// The session after an accepted pair that left `lanes`, by the lengths of its header and body.
fn advanced(s: Session, lanes: [u64; 25], header: usize, body: usize) -> Session
    requires { Fits desk s header body }
    ensures { result ≡ advanced s lanes header body }
{
    let rate = s.rate as usize;
    let more = block_count(header, rate)
        + block_count(body, rate)
        + (block_count(s.tag as usize, rate) - 1);
    Session {
        lanes,
        rate: s.rate,
        tag: s.tag,
        pairs: s.pairs + 1,
        calls: s.calls + more,
    }
}

// The state that a header leaves. Its frame bits are those of a key or a body the other way round.
fn headed(a: [u64; 25], header: &[u8], rate: Rate) -> [u64; 25]
    ensures { result ≡ headed 64 f1600 rate.bytes a header.now }
{
    duplex::absorbed(a, header, false, true, rate)
}

// The ciphertext of a body, then a tag of n bytes, from the state that the header left.
fn seal_pair(a: [u64; 25], body: &[u8], n: usize, rate: Rate, out: &mut [u8]) -> [u64; 25]
    requires { length body.now + n ≤ length out.old }
    ensures { (result ≡ state_after 64 f1600 rate.bytes (absorbed 64 f1600 rate.bytes a 1 0 body.now) n) × (out.new ≡ (sealed 64 f1600 rate.bytes a body.now ++ drawn 64 f1600 rate.bytes (absorbed 64 f1600 rate.bytes a 1 0 body.now) n) ++ drop (length body.now + n) out.old) }
{
    let (cipher, behind) = out.split_at_mut(body.len());
    let (tag, _) = behind.split_at_mut(n);
    let b = duplex::sealed_into(a, body, rate, cipher);
    duplex::drawn_into(b, rate, tag)
}

// A pair that fits sealed: the session after it.
fn seal_next(s: Session, header: &[u8], body: &[u8], out: &mut [u8]) -> Session
    requires { Fits desk s (length header.now) (length body.now) × (length body.now + s.tag ≤ length out.old) }
    ensures { (result ≡ next desk s header.now body.now) × (out.new ≡ (sealing desk s header.now body.now ++ tag_of desk s header.now body.now) ++ drop (length body.now + s.tag) out.old) }
{
    let bytes = s.rate as usize;
    let rate = Rate { bytes };
    let before = s.lanes;
    let head = headed(before, header, rate);
    let lanes = seal_pair(head, body, s.tag as usize, rate, out);
    advanced(s, lanes, header.len(), body.len())
}

// Seals a pair (SpongeWrap's wrap): the ciphertext and then the tag go to the first bytes of `out`.
pub fn wrap(s: Session, header: &[u8], body: &[u8], out: &mut [u8]) -> Result<Session, Refused>
    ensures { seen (answer_of result) out.new ≡ wraps desk s header.now body.now out.old }
{
    match orders::of_wrap(s, header.len(), body.len(), out.len()) {
        Ok(()) => Ok(seal_next(s, header, body, out)),
        Err(refusal) => Err(s.refused(refusal)),
    }
}

// The state after the tag of n bytes that the state `a` gives; none where `tag` is another.
fn check_tag(a: [u64; 25], tag: &[u8], n: usize, rate: Rate) -> Option<[u64; 25]>
    requires { n ≤ most_size }
    ensures { result ≡ then_some (same tag.now (drawn 64 f1600 rate.bytes a n)) (state_after 64 f1600 rate.bytes a n) }
{
    let mut buffer = [0u8; 256];
    let (due, _) = buffer.split_at_mut(n);
    let lanes = duplex::drawn_into(a, rate, due);
    compare::is_same(tag, due).then_some(lanes)
}

// The same for the tag that a ciphertext has, from the state that the header left. Nothing is written.
fn check_pair(a: [u64; 25], cipher: &[u8], tag: &[u8], n: usize, rate: Rate) -> Option<[u64; 25]>
    requires { n ≤ most_size }
    ensures { result ≡ then_some (same tag.now (drawn 64 f1600 rate.bytes (absorbed 64 f1600 rate.bytes a 1 0 (opened 64 f1600 rate.bytes a cipher.now)) n)) (state_after 64 f1600 rate.bytes (absorbed 64 f1600 rate.bytes a 1 0 (opened 64 f1600 rate.bytes a cipher.now)) n) }
{
    check_tag(duplex::peeked(a, cipher, rate), tag, n, rate)
}

// A pair that fits opened. The tag is checked before anything is written, so a wrong one releases nothing.
fn open_pair(
    s: Session,
    header: &[u8],
    cipher: &[u8],
    tag: &[u8],
    out: &mut [u8],
) -> Result<Session, Refused>
    requires { (first (ready_rows desk s (length header.now) (length cipher.now) (length out.old)) ≡ 0) × Fits desk s (length header.now) (length cipher.now) × (length cipher.now ≤ length out.old) }
    ensures { seen (answer_of result) out.new ≡ unwraps desk s header.now cipher.now tag.now out.old }
{
    let bytes = s.rate as usize;
    let rate = Rate { bytes };
    let before = s.lanes;
    let head = headed(before, header, rate);
    match check_pair(head, cipher, tag, s.tag as usize, rate) {
        Some(lanes) => {
            duplex::opened_into(head, cipher, rate, out);
            Ok(advanced(s, lanes, header.len(), cipher.len()))
        }
        None => Err(s.refused(Refusal::WrongTag)),
    }
}

// Opens a pair (SpongeWrap's unwrap): the body goes to the first bytes of `out`, once the tag has been found right.
pub fn unwrap(
    s: Session,
    header: &[u8],
    cipher: &[u8],
    tag: &[u8],
    out: &mut [u8],
) -> Result<Session, Refused>
    ensures { seen (answer_of result) out.new ≡ unwraps desk s header.now cipher.now tag.now out.old }
{
    match orders::of_unwrap(s, header.len(), cipher.len(), out.len()) {
        Ok(()) => open_pair(s, header, cipher, tag, out),
        Err(refusal) => Err(s.refused(refusal)),
    }
}
