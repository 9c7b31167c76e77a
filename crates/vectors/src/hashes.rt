// The functions under test, under one name.
ghost use Rattle.std.specs.Prelude.{◌≡◌, ◌≤◌, take};
ghost use Rattle.vectors.specs.Chains.{carried, hashed};

// Which function. It stays an enum, and each use a match: the definition Chains.hashed is by these three.
#[derive(Clone, Copy)]
pub enum Hash {
    Sha3_256,
    Shake128,
    Shake256,
}

// The hash of a message in the front of 256 zeros: `n` bytes of it, and of SHA3-256 always 32.
pub fn hashed(hash: Hash, message: &[u8], n: usize) -> [u8; 256]
    requires { n ≤ 256 }
    ensures { result ≡ hashed hash message.now n }
{
    let mut out = [0u8; 256];
    match hash {
        Hash::Sha3_256 => out[..32].copy_from_slice(&sponge::sha3_256(message)),
        Hash::Shake128 => sponge::shake128(message, &mut out[..n]),
        Hash::Shake256 => sponge::shake256(message, &mut out[..n]),
    }
    out
}

// How many bytes of one output a Monte Carlo chain takes for the next message.
fn carried(hash: Hash) -> usize
    ensures { (result ≡ carried hash) × (result ≤ 32) }
{
    match hash {
        Hash::Sha3_256 => 32,
        Hash::Shake128 | Hash::Shake256 => 16,
    }
}

// The next output of a Monte Carlo chain, `n` bytes of it.
pub fn chained(hash: Hash, last: [u8; 256], n: usize) -> [u8; 256]
    requires { n ≤ 256 }
    ensures { result ≡ hashed hash (take (carried hash) last) n }
{
    hashed(hash, &last[..carried(hash)], n)
}
