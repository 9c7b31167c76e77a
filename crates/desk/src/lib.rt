// What the desks' C program calls. A slice passes as a pointer and a length, and an answer as a refusal's number, for C has no Result;
// include/feefledown.h declares them.
#![tactic(auto)]

ghost use Rattle.std.specs.Prelude.{◌≡◌, []};
ghost use Rattle.refusal.specs.Numbers.{told};
ghost use Rattle.image.specs.Calls.{seen, opens_image, wraps_image, unwraps_image};
ghost use Rattle.desk.specs.Desk.{desk_rate, desk_tag, hashed, hashes};

use refusal::Refusal;

// The settings of an open that takes none. They are the desk's own: images on disk hold them.
const RATE: u16 = 136;

const TAG: u16 = 16;

// How many bytes SHA3-256 gives.
const DIGEST: usize = 32;

// Opens a session into an image (document 01, "Desk surface").
#[unsafe(no_mangle)]
pub extern "C" fn feefledown_open(key: &[u8], image: &mut [u8]) -> u8
    ensures { seen result image.new [] ≡ opens_image key.now desk_rate desk_tag image.old }
{
    refusal::number(image::open(key, RATE, TAG, image))
}

// Seals a pair: SpongeWrap's wrap over an image.
#[unsafe(no_mangle)]
pub extern "C" fn feefledown_wrap(
    image: &mut [u8],
    header: &[u8],
    body: &[u8],
    out: &mut [u8],
) -> u8
    ensures { seen result image.new out.new ≡ wraps_image image.old header.now body.now out.old }
{
    refusal::number(image::wrap(image, header, body, out))
}

// Opens a pair: SpongeWrap's unwrap over an image.
#[unsafe(no_mangle)]
pub extern "C" fn feefledown_unwrap(
    image: &mut [u8],
    header: &[u8],
    ciphertext: &[u8],
    tag: &[u8],
    body: &mut [u8],
) -> u8
    ensures { seen result image.new body.new ≡ unwraps_image image.old header.now ciphertext.now tag.now body.old }
{
    refusal::number(image::unwrap(image, header, ciphertext, tag, body))
}

// SHA3-256 (FIPS 202, section 6.1) into the first 32 bytes of a lent buffer.
fn put_hash(message: &[u8], digest: &mut [u8]) -> Result<(), Refusal>
    ensures { hashed (told result) digest.new ≡ hashes message.now digest.old }
{
    let first = digest.first_chunk_mut::<DIGEST>().ok_or(Refusal::NoRoom)?;
    *first = sponge::sha3_256(message);
    Ok(())
}

// The same, answered by its number.
#[unsafe(no_mangle)]
pub extern "C" fn feefledown_sha3_256(message: &[u8], digest: &mut [u8]) -> u8
    ensures { hashed result digest.new ≡ hashes message.now digest.old }
{
    refusal::number(put_hash(message, digest))
}
