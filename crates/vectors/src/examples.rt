// The worked examples of document 01 that are run and not proved, a line for each.
ghost use Rattle.std.specs.Prelude.{◌≡◌};
ghost use Rattle.refusal.specs.Numbers.{told};
ghost use Rattle.spongewrap.specs.Desk.{default_rate, default_tag, desk};
ghost use Rattle.spongewrap.specs.Sessions.{opens};

use crate::{named, tally};
use refusal::Refusal;
use spongewrap::Session;
use std::io;

// SHA3-256 of 135 bytes 0x41 as OpenSSL and Python give it, spelled as in NIST's files.
fn known_digest() -> [u8; 32] {
    let mut digest = [0u8; 32];
    let _ = named::decode(
        b"fb26b42ffe085f98796486a734c0639a8935a7845268ac2be76b6655d86d1d65",
        &mut digest,
    );
    digest
}

// A message of 135 bytes leaves one byte of its block, in which the suffix 0x06 and the last bit 0x80 meet: 0x86. The block is padded so by
// hand and absorbed, and both that and the hash call must give the digest that other programs give.
fn ends_in_0x86() -> bool {
    let message = [0x41u8; 135];
    let mut block = [0x41u8; 136];
    block[135] = 0x86;
    let state = sponge::absorbed_block([0u64; 25], &block);
    let mut digest = [0u8; 32];
    sponge::put_bytes(state, &mut digest);
    let known = known_digest();
    digest == known && sponge::sha3_256(&message) == known
}

// Why an open with this key is refused, if it is.
fn opened_by(key: &[u8]) -> Result<(), Refusal>
    ensures { told result ≡ (opens desk key.now default_rate default_tag).number }
{
    match spongewrap::open(key, Session::RATE, Session::TAG) {
        Ok(_) => Ok(()),
        Err(refused) => Err(refused.refusal),
    }
}

// A key of 15, 16, 256, 257 bytes: 2, open, open, 2.
fn keys_have_limits() -> bool {
    let key = [0x41u8; 257];
    opened_by(&key[..15]) == Err(Refusal::BadKey)
        && opened_by(&key[..16]) == Ok(())
        && opened_by(&key[..256]) == Ok(())
        && opened_by(&key) == Err(Refusal::BadKey)
}

// Every example, a line each.
pub fn print_all(rt: &impl Print) -> io::Result<()> {
    tally::print_example(
        rt,
        "SHA3-256 of 135 bytes: last block byte 135 is 0x86",
        ends_in_0x86(),
    )?;
    tally::print_example(
        rt,
        "Key of 15, 16, 256, 257 bytes: 2, open, open, 2   ",
        keys_have_limits(),
    )
}
