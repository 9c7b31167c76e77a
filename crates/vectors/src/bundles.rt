// The file of bundles: each is started with its label and added to, every entry is opened as soon as it stands, and the bytes are
// compared. A bundle of the file is one case, which agrees if all of this does.
ghost use Rattle.std.specs.Prelude.{◌≡◌, [], IsTrue, codes};
ghost use Rattle.vectors.specs.Spelled.{is_named};

use crate::cases::Cases;
use crate::entries::Made;
use crate::text::{ROOM, Text};

// A file as far as it is read: the header that came last, room for another field, and the last bundle, made in `bytes`. There is no
// bundle before the first key, none by a key that the open refuses, and none after a body that is too long.
#[derive(Drop)]
pub struct Bundles {
    header: Text<ROOM>,
    text: Text<ROOM>,
    made: Option<Made>,
    bytes: [u8; 65536],
}

impl Bundles {
    // Nothing read yet.
    pub(crate) fn new() -> Bundles
        ensures { result.header ≡ [] }
    {
        Bundles {
            header: Text::empty(),
            text: Text::empty(),
            made: None,
            bytes: [0; 65536],
        }
    }

    // The bundle after a line, which may have its key, its label or a body.
    fn moved(&mut self, line: &[u8]) -> Option<Made> {
        if self.text.read(line, b"Key =") {
            return Made::fresh(self.text.bytes());
        }
        let made = self.made?;
        if self.text.read(line, b"Label =") {
            return Some(made.started(self.text.bytes(), &mut self.bytes));
        }
        if self.text.read(line, b"Body =") {
            return made.added(self.header.bytes(), self.text.bytes(), &mut self.bytes);
        }
        Some(made)
    }

    // Whether the bundle is that of the line that was read into the room.
    fn is_due(&self) -> bool {
        match self.made {
            Some(made) => made.is_due(&self.bytes, self.text.bytes()),
            None => false,
        }
    }
}

impl Cases for Bundles {
    ghost Ends = { λ line. IsTrue (is_named line (codes "Bundle =")) };

    fn read(&mut self, line: &[u8]) -> Option<bool> {
        if self.text.read(line, b"Bundle =") {
            return Some(self.is_due());
        }
        self.header.read(line, b"Header =");
        self.made = self.moved(line);
        None
    }
}
