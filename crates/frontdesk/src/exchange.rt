// Pairs outside a bundle: one side seals by its running session, and the other opens by its own.
ghost use Rattle.std.specs.Prelude.{◌≡◌, ◌+◌, ◌≤◌, length};
ghost use Rattle.spongewrap.specs.Desk.{desk};
ghost use Rattle.spongewrap.specs.Sessions.{wraps};
ghost use Rattle.frontdesk.specs.Day.{dots, sealed_pair, opens_pair};

use crate::{DOT, ROOM, lines};
use spongewrap::Session;

// Opens what the other side sealed, a ciphertext of n bytes and its tag, and prints the pair's line.
fn open(rt: &impl Print, s: &mut Session, header: &[u8], sealed: &[u8], n: usize)
    requires { n + 16 ≤ length sealed.now }
    ensures { s.new ≡ opens_pair s.old header.now n sealed.now }
{
    let mut out = [DOT; ROOM];
    let pair = s.pairs;
    let end = n + bundle::TAG;
    let done = running::unwrap_in_place(s, header, &sealed[..n], &sealed[n..end], &mut out);
    lines::print_pair(rt, pair.into(), header, n, s.calls);
    lines::print_outcome(rt, done.err(), &out, n);
}

// Passes a pair from one side to the other.
fn pass(rt: &impl Print, from: &mut Session, to: &mut Session, header: &[u8], body: &[u8])
    requires { length body.now ≤ 240 }
    ensures { (from.new ≡ (wraps desk from.old header.now body.now dots).answer.session) × (to.new ≡ opens_pair to.old header.now (length body.now) (sealed_pair from.old header.now body.now)) }
{
    let mut sealed = [DOT; ROOM];
    let pair = from.pairs;
    let done = running::wrap_in_place(from, header, body, &mut sealed);
    lines::print_pair(rt, pair.into(), header, body.len(), from.calls);
    lines::print_sealed(rt, done.err());
    open(rt, to, header, &sealed, body.len());
}

// The desk answers the office, and the office answers the desk.
pub fn by_turns(rt: &impl Print, mut desk: Session, mut office: Session) {
    lines::print_receipt(rt);
    pass(
        rt,
        &mut desk,
        &mut office,
        b"receipt",
        b"five entries, each opened",
    );
    lines::print_answer(rt);
    pass(
        rt,
        &mut office,
        &mut desk,
        b"next bundle",
        b"reef hall, week 47",
    );
}
