// The bytes of a field, in a room of their own.
ghost use Rattle.std.specs.Prelude.{◌≡◌, ◌+◌, ◌≤◌, ◌<◌, true, false, [], length, drop};
ghost use Rattle.vectors.specs.Spelled.{Decoded, is_named, value};

use crate::named;
use std::marker::Model;

// How much room a field takes at most: a line stands in a buffer of 65,536 bytes, and two of its digits spell a byte.
pub const ROOM: usize = 32_768;

// The bytes that a field had last: the first `held` of the room. Contracts see them alone.
#[derive(Drop)]
pub struct Text<const N: usize> {
    room: [u8; N],
    held: usize,
}

impl<const N: usize> Model for Text<N> {
    ghost use Rattle.std.specs.Prelude.{List, ℕ, ◌≤◌, take};

    ghost Value = { List ℕ };

    ghost view = { λ t. take t.held t.room };

    ghost invariant = { λ t. t.held ≤ N };
}

impl<const N: usize> Text<N> {
    // No bytes yet.
    pub(crate) fn empty() -> Text<N>
        ensures { result ≡ [] }
    {
        Text {
            room: [0; N],
            held: 0,
        }
    }

    pub(crate) fn bytes(&self) -> &[u8]
        ensures within { length result.now ≤ N }
        ensures bytes { result.now ≡ self.now }
    {
        &self.room[..self.held]
    }

    // Holds the bytes that the digits spell.
    fn decode(&mut self, digits: &[u8])
        ensures { Decoded N digits.now self.new }
    {
        self.held = named::decode(digits, &mut self.room).unwrap_or(0);
    }

    // Reads the field whose name is given without the blank at its end, and which may be empty. Answers whether the line has it.
    pub(crate) fn read(&mut self, line: &[u8], name: &[u8]) -> bool
        ensures named { result ≡ is_named line.now name.now }
        ensures other { result ≡ false → self.new ≡ self.old }
        ensures bytes { result ≡ true → Decoded N (drop (length name.now + 1) line.now) self.new }
    {
        if !named::is_named(line, name) {
            return false;
        }
        self.decode(line.get(name.len() + 1..).unwrap_or(b""));
        true
    }

    // Reads the field whose name is given with the blank. Where nothing follows it, the bytes stay.
    pub(crate) fn read_value(&mut self, line: &[u8], name: &[u8])
        ensures other { value line.now name.now ≡ [] → self.new ≡ self.old }
        ensures bytes { 0 < length (value line.now name.now) → Decoded N (value line.now name.now) self.new }
    {
        if let Some(digits) = named::value(line, name) {
            self.decode(digits);
        }
    }
}
