// Fields of a byte buffer: big-endian numbers of two, four and eight bytes, and strings, read and stored at a place.
#![tactic(auto)]

ghost use Rattle.std.specs.Prelude.{◌≡◌, ℕ, ◌+◌, ◌≤◌, length};
ghost use Rattle.std.proofs.lemmas.List.Edits.{sets};
ghost use Rattle.fields.specs.Numbers.{number_at, bytes_of};

// A number of so many bytes, which stand in a buffer with the highest first. An `unwrap` below takes an array from a slice of its own length, as is proved.
pub trait Number: Copy {
    ghost width: { ℕ };

    ghost value: { Self → ℕ };

    // The number that stands at a place.
    fn read(b: &[u8], at: usize) -> Self
        requires { at + width ≤ length b.now }
        ensures { value result ≡ number_at width b.now at };

    // The number stored at a place.
    fn put(self, b: &mut [u8], at: usize)
        requires { at + width ≤ length b.old }
        ensures { b.new ≡ sets b.old at (bytes_of width (value self)) };
}

impl Number for u16 {
    ghost width = { 2 };

    ghost value = { λ n. n };

    fn read(b: &[u8], at: usize) -> u16 {
        u16::from_be_bytes(b[at..at + 2].try_into().unwrap())
    }

    fn put(self, b: &mut [u8], at: usize) {
        put_string(b, at, &u16::to_be_bytes(self));
    }
}

impl Number for u32 {
    ghost width = { 4 };

    ghost value = { λ n. n };

    fn read(b: &[u8], at: usize) -> u32 {
        u32::from_be_bytes(b[at..at + 4].try_into().unwrap())
    }

    fn put(self, b: &mut [u8], at: usize) {
        put_string(b, at, &u32::to_be_bytes(self));
    }
}

impl Number for u64 {
    ghost width = { 8 };

    ghost value = { λ n. n };

    fn read(b: &[u8], at: usize) -> u64 {
        u64::from_be_bytes(b[at..at + 8].try_into().unwrap())
    }

    fn put(self, b: &mut [u8], at: usize) {
        put_string(b, at, &u64::to_be_bytes(self));
    }
}

// Bytes copied one by one: of `copy_from_slice` from one lent buffer to another the compiler makes a call of `memmove`, and an archive for C is
// to need no more than `memcpy` from outside.
fn copy(s: &[u8], out: &mut [u8])
    requires { length out.old ≡ length s.now }
    ensures { out.new ≡ s.now }
{
    for (i, x) in out.iter_mut().enumerate() {
        *x = s[i];
    }
}

// A string stored from a place on.
pub fn put_string(b: &mut [u8], at: usize, s: &[u8])
    requires { at + length s.now ≤ length b.old }
    ensures { b.new ≡ sets b.old at s.now }
{
    copy(s, &mut b[at..at + s.len()]);
}
