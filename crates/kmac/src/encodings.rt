// The encodings (NIST SP 800-185, section 2.3), absorbed as they are made: no string is copied.
ghost use Rattle.std.specs.Prelude.{◌≡◌, [], ◌∷◌, ◌++◌, ◌≤◌, length};
ghost use Rattle.keccak.specs.Rounds.{f1600};
ghost use Rattle.fields.specs.Numbers.{bytes_of};
ghost use Rattle.absorber.specs.Absorbing.{fresh, Absorbed, Ready};
ghost use Rattle.kmac.specs.Encodings.{size, left_encode, right_encode, encode_string, bytepad};
ghost use Rattle.kmac.specs.Refusals.{most_string};

use absorber::Absorber;

// The fewest bytes that hold x, by its leading zeros; zero takes one.
fn byte_count(x: u64) -> usize
    ensures { (result ≡ size x) × (result ≤ 8) }
{
    if x == 0 {
        return 1;
    }
    (71 - x.leading_zeros() as usize) / 8
}

// The last n bytes of x.
fn absorbed_number<const RATE: usize>(c: &Absorber<RATE>, x: u64, n: usize) -> Absorber<RATE>
    requires { Ready 64 RATE 0 × (n ≤ 8) }
    ensures { Absorbed 64 f1600 RATE c.now (bytes_of n x) result }
{
    c.absorbed(&x.to_be_bytes()[8 - n..])
}

// A count of bytes, in a byte.
fn absorbed_count<const RATE: usize>(c: &Absorber<RATE>, n: usize) -> Absorber<RATE>
    requires { Ready 64 RATE 0 × (n ≤ 8) }
    ensures { Absorbed 64 f1600 RATE c.now (n ∷ []) result }
{
    c.absorbed(&[n as u8])
}

// left_encode: the count, and then the bytes of x.
fn left_encoded<const RATE: usize>(c: &Absorber<RATE>, x: u64) -> Absorber<RATE>
    requires { Ready 64 RATE 0 }
    ensures { Absorbed 64 f1600 RATE c.now (left_encode x) result }
{
    let n = byte_count(x);
    let counted = absorbed_count(c, n);
    absorbed_number(&counted, x, n)
}

// right_encode: the bytes of x, and then their count.
pub fn right_encoded<const RATE: usize>(c: &Absorber<RATE>, x: u64) -> Absorber<RATE>
    requires { Ready 64 RATE 0 }
    ensures { Absorbed 64 f1600 RATE c.now (right_encode x) result }
{
    let n = byte_count(x);
    let begun = absorbed_number(c, x, n);
    absorbed_count(&begun, n)
}

// encode_string: a string behind its length in bits.
fn string_encoded<const RATE: usize>(c: &Absorber<RATE>, s: &[u8]) -> Absorber<RATE>
    requires { Ready 64 RATE 0 × (length s.now ≤ most_string) }
    ensures { Absorbed 64 f1600 RATE c.now (encode_string s.now) result }
{
    let bits = 8 * (s.len() as u64);
    let begun = left_encoded(c, bits);
    begun.absorbed(s)
}

// bytepad of a name and a customisation, from the start.
pub fn names_padded<const RATE: usize>(name: &[u8], customisation: &[u8]) -> Absorber<RATE>
    requires { Ready 64 RATE 0 × (length name.now ≤ most_string) × (length customisation.now ≤ most_string) }
    ensures { Absorbed 64 f1600 RATE fresh (bytepad (encode_string name.now ++ encode_string customisation.now) RATE) result × (result.offset ≡ 0) }
{
    let begun = left_encoded(&Absorber::fresh(), RATE as u64);
    let named = string_encoded(&begun, name);
    let both = string_encoded(&named, customisation);
    both.filled()
}

// bytepad of a key, from a block's edge on.
pub fn key_padded<const RATE: usize>(c: &Absorber<RATE>, key: &[u8]) -> Absorber<RATE>
    requires { Ready 64 RATE 0 × (c.now.offset ≡ 0) × (length key.now ≤ most_string) }
    ensures { Absorbed 64 f1600 RATE c.now (bytepad (encode_string key.now) RATE) result }
{
    let begun = left_encoded(c, RATE as u64);
    let keyed = string_encoded(&begun, key);
    keyed.filled()
}
