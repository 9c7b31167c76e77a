// cSHAKE and KMAC (NIST SP 800-185): hashes by a function name and a customisation, and message codes by a key.
// The lent output is filled; or a call is refused, and nothing is written.
#![tactic(auto)]

mod encodings; // encodings.rt: integers and strings, and what is padded to a block
mod orders; // orders.rt: the limits, and the tests of each call in their order

ghost use Rattle.std.specs.Prelude.{◌≡◌, ◌≤◌, length};
ghost use Rattle.keccak.specs.Rounds.{f1600};
ghost use Rattle.sponge.specs.Sponge.{squeeze};
ghost use Rattle.compare.specs.Same.{same};
ghost use Rattle.absorber.specs.Absorbing.{ended, Ready};
ghost use Rattle.kmac.specs.Functions.{kmac_name, cshake, new_x, kmac};
ghost use Rattle.refusal.specs.Limits.{most_size};
ghost use Rattle.refusal.specs.Numbers.{told};
ghost use Rattle.kmac.specs.Refusals.{most_string};
ghost use Rattle.kmac.specs.Answers.{seen, verdict, cshakes, kmacs, kmacxofs, verifies};

use absorber::Absorber;
use refusal::Refusal;

// ---- at any rate

// The output of a cSHAKE that has a name or a customisation, from all that it absorbs.
fn squeeze_named<const RATE: usize>(c: &Absorber<RATE>, out: &mut [u8])
    requires { Ready 64 RATE 0 }
    ensures { out.new ≡ squeeze 64 f1600 RATE (ended 64 f1600 RATE c.now 0x04) (length out.old) }
{
    sponge::squeeze_into(c.ended(0x04), RATE, out);
}

// cSHAKE.
fn cshake_at<const RATE: usize>(
    name: &[u8],
    customisation: &[u8],
    message: &[u8],
    out: &mut [u8],
) -> Result<(), Refusal>
    requires { Ready 64 RATE 0 }
    ensures { seen (told result) out.new ≡ cshakes 64 f1600 RATE name.now customisation.now message.now out.old }
{
    orders::of_cshake(name.len(), customisation.len())?;
    if name.len() + customisation.len() == 0 {
        sponge::hash_into(message, 0x1F, RATE, out);
        return Ok(());
    }
    let head = encodings::names_padded::<RATE>(name, customisation);
    let whole = head.absorbed(message);
    squeeze_named(&whole, out);
    Ok(())
}

// KMAC with `bits` for the length of its output: 0 for an output of any length.
fn keyed_into<const RATE: usize>(
    key: &[u8],
    customisation: &[u8],
    message: &[u8],
    bits: u64,
    out: &mut [u8],
)
    requires { Ready 64 RATE 0 × (length key.now ≤ most_size) × (length customisation.now ≤ most_string) }
    ensures { out.new ≡ cshake 64 f1600 RATE (new_x RATE key.now message.now bits) (length out.old) kmac_name customisation.now }
{
    let head = encodings::names_padded::<RATE>(b"KMAC", customisation);
    let keyed = encodings::key_padded(&head, key);
    let most = keyed.absorbed(message);
    let whole = encodings::right_encoded(&most, bits);
    squeeze_named(&whole, out);
}

// KMAC: a code of the output's length.
fn kmac_at<const RATE: usize>(
    key: &[u8],
    customisation: &[u8],
    message: &[u8],
    out: &mut [u8],
) -> Result<(), Refusal>
    requires { Ready 64 RATE 0 }
    ensures { seen (told result) out.new ≡ kmacs 64 f1600 RATE key.now customisation.now message.now out.old }
{
    orders::of_kmac(key.len(), out.len(), customisation.len())?;
    let bits = 8 * (out.len() as u64);
    keyed_into::<RATE>(key, customisation, message, bits, out);
    Ok(())
}

// KMACXOF: an output of any length.
fn kmacxof_at<const RATE: usize>(
    key: &[u8],
    customisation: &[u8],
    message: &[u8],
    out: &mut [u8],
) -> Result<(), Refusal>
    requires { Ready 64 RATE 0 }
    ensures { seen (told result) out.new ≡ kmacxofs 64 f1600 RATE key.now customisation.now message.now out.old }
{
    orders::of_kmacxof(key.len(), customisation.len())?;
    keyed_into::<RATE>(key, customisation, message, 0, out);
    Ok(())
}

// Whether a code is the one that KMAC gives at its length. Both are looked at to their last byte.
fn is_code<const RATE: usize>(key: &[u8], customisation: &[u8], message: &[u8], code: &[u8]) -> bool
    requires { Ready 64 RATE 0 × (length key.now ≤ most_size) × (length customisation.now ≤ most_string) × (length code.now ≤ most_size) }
    ensures { result ≡ same code.now (kmac 64 f1600 RATE key.now message.now (length code.now) customisation.now) }
{
    let n = code.len();
    let bits = 8 * (n as u64);
    let mut due = [0u8; 256];
    keyed_into::<RATE>(key, customisation, message, bits, &mut due[..n]);
    compare::is_same(code, &due[..n])
}

// KMAC's verification.
fn verify_at<const RATE: usize>(
    key: &[u8],
    customisation: &[u8],
    message: &[u8],
    code: &[u8],
) -> Result<bool, Refusal>
    requires { Ready 64 RATE 0 }
    ensures { verdict result ≡ verifies 64 f1600 RATE key.now customisation.now message.now code.now }
{
    orders::of_kmac(key.len(), code.len(), customisation.len())?;
    Ok(is_code::<RATE>(key, customisation, message, code))
}

// ---- the standard's functions, at their rates

// cSHAKE128 (section 3.3). It fills the lent slice, which may be empty; with name and customisation both empty it is SHAKE128.
pub fn cshake128(
    name: &[u8],
    customisation: &[u8],
    message: &[u8],
    out: &mut [u8],
) -> Result<(), Refusal>
    ensures { seen (told result) out.new ≡ cshakes 64 f1600 168 name.now customisation.now message.now out.old }
{
    cshake_at::<168>(name, customisation, message, out)
}

// cSHAKE256 (section 3.3); with name and customisation both empty it is SHAKE256.
pub fn cshake256(
    name: &[u8],
    customisation: &[u8],
    message: &[u8],
    out: &mut [u8],
) -> Result<(), Refusal>
    ensures { seen (told result) out.new ≡ cshakes 64 f1600 136 name.now customisation.now message.now out.old }
{
    cshake_at::<136>(name, customisation, message, out)
}

// KMAC128 (section 4.3): a code of the lent slice's length, 16 to 256 bytes, by a key of 16 to 256 bytes.
pub fn kmac128(
    key: &[u8],
    customisation: &[u8],
    message: &[u8],
    out: &mut [u8],
) -> Result<(), Refusal>
    ensures { seen (told result) out.new ≡ kmacs 64 f1600 168 key.now customisation.now message.now out.old }
{
    kmac_at::<168>(key, customisation, message, out)
}

// KMAC256 (section 4.3).
pub fn kmac256(
    key: &[u8],
    customisation: &[u8],
    message: &[u8],
    out: &mut [u8],
) -> Result<(), Refusal>
    ensures { seen (told result) out.new ≡ kmacs 64 f1600 136 key.now customisation.now message.now out.old }
{
    kmac_at::<136>(key, customisation, message, out)
}

// KMACXOF128 (section 4.3.1). It fills the lent slice, which may be empty.
pub fn kmacxof128(
    key: &[u8],
    customisation: &[u8],
    message: &[u8],
    out: &mut [u8],
) -> Result<(), Refusal>
    ensures { seen (told result) out.new ≡ kmacxofs 64 f1600 168 key.now customisation.now message.now out.old }
{
    kmacxof_at::<168>(key, customisation, message, out)
}

// KMACXOF256 (section 4.3.1).
pub fn kmacxof256(
    key: &[u8],
    customisation: &[u8],
    message: &[u8],
    out: &mut [u8],
) -> Result<(), Refusal>
    ensures { seen (told result) out.new ≡ kmacxofs 64 f1600 136 key.now customisation.now message.now out.old }
{
    kmacxof_at::<136>(key, customisation, message, out)
}

// Whether a code is KMAC128's of the key, the customisation and the message, at its length.
pub fn kmac128_verify(
    key: &[u8],
    customisation: &[u8],
    message: &[u8],
    code: &[u8],
) -> Result<bool, Refusal>
    ensures { verdict result ≡ verifies 64 f1600 168 key.now customisation.now message.now code.now }
{
    verify_at::<168>(key, customisation, message, code)
}

// Whether a code is KMAC256's.
pub fn kmac256_verify(
    key: &[u8],
    customisation: &[u8],
    message: &[u8],
    code: &[u8],
) -> Result<bool, Refusal>
    ensures { verdict result ≡ verifies 64 f1600 136 key.now customisation.now message.now code.now }
{
    verify_at::<136>(key, customisation, message, code)
}
