// The sponge over Keccak-f[1600]: blocks of bytes go in, bytes come out; and the hashes of FIPS 202.
#![tactic(auto)]

ghost use Rattle.std.specs.Prelude.{◌≡◌, [], ◌∷◌, ◌++◌, ◌/◌, ◌%◌, ◌^◌, ◌<◌, ◌≤◌, length, take};
ghost use Rattle.keccak.specs.Rounds.{f1600};
ghost use Rattle.sponge.specs.Bytes.{lane_of, mixed, bytes};
ghost use Rattle.sponge.specs.Padding.{padded};
ghost use Rattle.sponge.specs.Sponge.{absorb_block, absorb, squeeze};
ghost use Rattle.sponge.specs.Hashes.{message_blocks, hash, sha3_256, shake128, shake256};

// A block of whole lanes xored into the first lanes of a state.
pub fn mixed(a: [u64; 25], b: &[u8]) -> [u64; 25]
    requires { (length b.now % 8 ≡ 0) × (length b.now ≤ 200) }
    ensures { result ≡ mixed 64 a b.now }
{
    let (lanes, _) = b.as_chunks::<8>();
    let mut r = a;
    for (j, bytes) in lanes.iter().enumerate() {
        r[j] ^= u64::from_le_bytes(*bytes);
    }
    r
}

// One block absorbed.
pub fn absorbed_block(a: [u64; 25], b: &[u8]) -> [u64; 25]
    requires { (length b.now % 8 ≡ 0) × (length b.now ≤ 200) }
    ensures { result ≡ absorb_block 64 f1600 a b.now }
{
    keccak::permuted(mixed(a, b))
}

// What is left of a piece after its whole lanes, and the byte `suffix` after that, as a lane.
fn rest_of(piece: &[u8], suffix: u8) -> u64
    requires { suffix < 128 }
    ensures { (result ≡ lane_of 64 (piece.now ++ (suffix ∷ [])) (length piece.now / 8)) × (result < 2 ^ 63) }
{
    let (_, rest) = piece.as_chunks::<8>();
    let n = rest.len();
    let mut lane = [0u8; 8];
    lane[..n].copy_from_slice(rest);
    lane[n] = suffix;
    u64::from_le_bytes(lane)
}

// A piece padded to a block of `rate` bytes and xored into the first lanes of a state.
fn mixed_piece(a: [u64; 25], piece: &[u8], suffix: u8, rate: usize) -> [u64; 25]
    requires { (length piece.now < rate) × (rate ≤ 200) × (rate % 8 ≡ 0) × (suffix < 128) }
    ensures { result ≡ mixed 64 a (padded rate suffix piece.now) }
{
    let k = piece.len() / 8;
    let n = 8 * k;
    let mut r = mixed(a, &piece[..n]);
    r[k] ^= rest_of(piece, suffix);
    let last = rate / 8 - 1;
    r[last] ^= 0x8000_0000_0000_0000;
    r
}

// A piece padded and absorbed.
pub fn absorbed_piece(a: [u64; 25], piece: &[u8], suffix: u8, rate: usize) -> [u64; 25]
    requires { (length piece.now < rate) × (rate ≤ 200) × (rate % 8 ≡ 0) × (suffix < 128) }
    ensures { result ≡ absorb_block 64 f1600 a (padded rate suffix piece.now) }
{
    keccak::permuted(mixed_piece(a, piece, suffix, rate))
}

// A whole message absorbed from the state a: its whole blocks as they are, and the rest padded.
fn absorbed_message(a: [u64; 25], message: &[u8], suffix: u8, rate: usize) -> [u64; 25]
    requires { (0 < rate) × (rate ≤ 200) × (rate % 8 ≡ 0) × (suffix < 128) }
    ensures { result ≡ absorb 64 f1600 a (message_blocks rate suffix message.now) }
{
    // By index: a loop that goes down the slice, by `split_at` or by ranges, copies the state once more a block and takes 2 % more time.
    let mut st = a;
    let mut at = 0;
    while rate <= message.len() - at {
        // Named first: laid straight over the array that it takes, the call's result gets no proof in this loop.
        let next = absorbed_block(st, &message[at..at + rate]);
        st = next;
        at += rate;
    }
    absorbed_piece(st, &message[at..], suffix, rate)
}

// The bytes of a state, in block order: eight a lane.
pub fn state_bytes(a: [u64; 25]) -> [u8; 200]
    ensures { result ≡ bytes 64 a }
{
    // `a.map(u64::to_le_bytes)` and `as_flattened` say the same, but compile to many times the instructions.
    let mut r = [0u8; 200];
    for j in 0..25 {
        let i = 8 * j;
        r[i..i + 8].copy_from_slice(&a[j].to_le_bytes());
    }
    r
}

// The first bytes of a state.
pub fn put_bytes(a: [u64; 25], out: &mut [u8])
    requires { length out.old ≤ 200 }
    ensures { out.new ≡ take (length out.old) (bytes 64 a) }
{
    let b = state_bytes(a);
    let n = out.len();
    out.copy_from_slice(&b[..n]);
}

// The whole slice filled from a state: `rate` bytes, then a permutation, and so on.
pub fn squeeze_into(a: [u64; 25], rate: usize, out: &mut [u8])
    requires { (0 < rate) × (rate ≤ 200) }
    ensures { out.new ≡ squeeze 64 f1600 rate a (length out.old) }
{
    // By index: of a slice that a loop lends on with `split_at_mut`, or goes over with `chunks_mut`, no proof knows the elements afterwards.
    let mut st = a;
    let mut at = 0;
    while rate < out.len() - at {
        put_bytes(st, &mut out[at..at + rate]);
        // Named first: laid straight over the array that it takes, the call's result gets no proof in this loop.
        let next = keccak::permuted(st);
        st = next;
        at += rate;
    }
    put_bytes(st, &mut out[at..]);
}

// The hash of a message at a rate, by its suffix byte. It fills the lent slice, which may be empty.
pub fn hash_into(message: &[u8], suffix: u8, rate: usize, out: &mut [u8])
    requires { (0 < rate) × (rate ≤ 200) × (rate % 8 ≡ 0) × (suffix < 128) }
    ensures { out.new ≡ hash 64 f1600 rate suffix message.now (length out.old) }
{
    let zeros = [0u64; 25];
    squeeze_into(absorbed_message(zeros, message, suffix, rate), rate, out);
}

// The standard's three hashes, each one call of the function above.

// SHA3-256 (FIPS 202, section 6.1).
pub fn sha3_256(message: &[u8]) -> [u8; 32]
    ensures { result ≡ sha3_256 message.now }
{
    let mut digest = [0u8; 32];
    hash_into(message, 0x06, 136, &mut digest);
    digest
}

// SHAKE128 (FIPS 202, section 6.2). It fills the lent slice, which may be empty.
pub fn shake128(message: &[u8], out: &mut [u8])
    ensures { out.new ≡ shake128 message.now (length out.old) }
{
    hash_into(message, 0x1F, 168, out);
}

// SHAKE256 (FIPS 202, section 6.2). It fills the lent slice, which may be empty.
pub fn shake256(message: &[u8], out: &mut [u8])
    ensures { out.new ≡ shake256 message.now (length out.old) }
{
    hash_into(message, 0x1F, 136, out);
}
