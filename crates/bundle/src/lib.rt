// Bundles, version 1: the pairs of one session, end to end in one buffer.
// A bundle is surveyed as it stands; its entries are opened one by one, and it is started and added to in place.
#![tactic(auto)]

mod format; // format.rt: the format, and the entry rules
mod surveying; // surveying.rt: whether bytes are a bundle
mod opening; // opening.rt: opening the entry at a place
mod writing; // writing.rt: starting a bundle and adding to it

ghost use Rattle.std.specs.Prelude.{◌≡◌, Err};
ghost use Rattle.refusal.specs.Rows.{first};
ghost use Rattle.refusal.specs.Numbers.{told};
ghost use Rattle.bundle.specs.Format.{version1};
ghost use Rattle.bundle.specs.Answers.{own, fault_told, entry_told};

pub use format::{FIRST, RATE, TAG, calls_of, entry_at};
pub use opening::open_entry;
use refusal::Refusal;
use spongewrap::{Session, orders};
pub use surveying::survey;
pub use writing::{add, end_of, start};

// A whole entry: the lengths of its header and body, and the place after it.
#[derive(Clone, Copy, Debug, PartialEq, Eq)]
pub struct Entry {
    pub header: usize,
    pub body: usize,
    pub next: usize,
}

// Why no whole entry stands at a place.
#[derive(Clone, Copy, Debug, PartialEq, Eq)]
pub enum NoEntry {
    // Under six bytes are left.
    Short,
    // The body length is over the limit.
    Large,
    // Its parts run past the end.
    Past,
}

impl NoEntry {
    // The fault of a place with no whole entry: the causes get their refusal and place here.
    pub fn at(self, place: usize) -> Fault
        ensures { fault_told result ≡ entry_told (Err self) place }
    {
        Fault {
            refusal: Refusal::Malformed,
            place,
        }
    }
}

// A refusal, and the place that it names.
#[derive(Clone, Copy, Debug, PartialEq, Eq)]
pub struct Fault {
    pub refusal: Refusal,
    pub place: usize,
}

// A refusal of no entry names place 0.
impl From<Refusal> for Fault {
    ghost from_gives = { λ refusal fault. fault ≡ record { refusal = refusal; place = 0 } };

    fn from(refusal: Refusal) -> Fault {
        Fault { refusal, place: 0 }
    }
}

// What an opened entry answers: the session that opens the next one, and its place. In each answer the session stands first, as in
// `spongewrap`'s.
#[derive(Clone, Copy)]
pub struct Opened {
    pub session: Session,
    pub next: usize,
}

// What a refused call answers: why and where, and the session as it was handed in.
#[derive(Clone, Copy)]
pub struct Refused {
    pub session: Session,
    pub fault: Fault,
}

// What a bundle refuses of a session: 1, 3, or 7.
fn own_refusal(s: Session) -> Result<(), Refusal>
    ensures { told result ≡ first (own version1 s) }
{
    orders::of_session(s, s.rate != format::RATE, s.tag as usize != format::TAG)
}
