// The files of single messages: short, long, and of variable output.
ghost use Rattle.std.specs.Prelude.{◌≡◌, ◌≤◌, eqb};
ghost use Rattle.refusal.specs.Rows.{pick};
ghost use Rattle.vectors.specs.Spelled.{HasResult};

use crate::cases::Cases;
use crate::hashes::Hash;
use crate::text::{ROOM, Text};
use crate::{hashes, named};

// A case as far as it is read: the lengths that the file states, in bits, and the bytes of the message.
#[derive(Drop)]
pub struct Messages {
    hash: Hash,
    input: usize,
    output: usize,
    message: Text<ROOM>,
}

// The bits that the files spell for a message of so many: an empty one is spelled as one byte.
#[tactic(auto, using(refusal::proofs::Rows::rows))]
fn spelled(bits: usize) -> usize
    ensures { (result ≡ pick (eqb bits 0) 8 bits) × (bits ≤ result) }
{
    if bits == 0 { 8 } else { bits }
}

impl Messages {
    // Nothing read yet.
    pub(crate) fn new(hash: Hash) -> Messages {
        Messages {
            hash,
            input: 0,
            output: 0,
            message: Text::empty(),
        }
    }

    // Whether a case, read up to its result, has the digest or output that the digits spell.
    fn agrees(&self, digits: &[u8]) -> bool {
        let mut expected = [0u8; 256];
        let Some(n) = named::decode(digits, &mut expected) else {
            return false;
        };
        let message = self.message.bytes();
        if self.output != 8 * n || spelled(self.input) != 8 * message.len() {
            return false;
        }
        hashes::hashed(self.hash, &message[..self.input / 8], n) == expected
    }
}

impl Cases for Messages {
    ghost Ends = { HasResult };

    fn read(&mut self, line: &[u8]) -> Option<bool> {
        self.input = named::number_after(line, b"Len = ", self.input);
        self.input = named::number_after(line, b"[Input Length = ", self.input);
        self.output = named::number_after(line, b"[L = ", self.output);
        self.output = named::number_after(line, b"[Outputlen = ", self.output);
        self.output = named::number_after(line, b"Outputlen = ", self.output);
        self.message.read_value(line, b"Msg = ");
        let digits = named::result(line)?;
        Some(self.agrees(digits))
    }
}
