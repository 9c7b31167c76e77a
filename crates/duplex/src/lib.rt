// The duplex over Keccak-f[1600]: framed pieces go in one by one, and each leaves output that depends on all before it.
// This is the duplex object of "Duplexing the sponge"; below it stand the string functions that SpongeWrap is made of.
#![tactic(auto)]

ghost use Rattle.std.specs.Prelude.{◌≡◌, ◌++◌, ◌<◌, ◌≤◌, length, drop};
ghost use Rattle.keccak.specs.Rounds.{f1600};
ghost use Rattle.sponge.specs.Bytes.{bytes};
ghost use Rattle.sponge.specs.Sponge.{zeros};
ghost use Rattle.duplex.specs.Duplex.{Rate as GoodRate, duplexing, blank, drawn, state_after};
ghost use Rattle.duplex.specs.Strings.{xored, absorbed, sealed, opened};
ghost use Rattle.duplex.specs.Object.{bit, duplex_refused, outcome, seen, duplexes};

// How many bytes of the state a block covers: room for a byte and its frame, in whole lanes. Whoever makes one shows that.
#[derive(Clone, Copy)]
pub struct Rate {
    pub bytes: usize,
    ghost fits: { GoodRate 64 bytes },
}

// A duplex object: the state, and how many bytes of it a block covers.
#[derive(Clone, Copy)]
pub struct Duplex {
    pub lanes: [u64; 25],
    pub rate: u16,
}

// A refused call hands the object back as it took it.
#[derive(Clone, Copy)]
pub struct Refused {
    pub duplex: Duplex,
}

impl Duplex {
    // A fresh object. Any rate may be stated: one that is not 136 or 168 is refused at each call.
    #[tactic(auto, unfolding(sponge::specs::Sponge::zeros))]
    pub fn new(rate: u16) -> Duplex
        ensures { result ≡ (record { lanes = zeros; rate = rate }) }
    {
        Duplex {
            lanes: [0u64; 25],
            rate,
        }
    }

    // One duplexing: a piece of at most rate - 1 bytes goes in, and the lent slice, at most rate bytes, is filled with output.
    // It answers with the object after it.
    #[tactic(auto, using(crate::proofs::Object::duplex_passes, crate::proofs::Object::refusing, crate::proofs::Object::doing))]
    pub fn duplexing(self, piece: &[u8], frame: bool, out: &mut [u8]) -> Result<Duplex, Refused>
        ensures { seen (outcome result) out.new ≡ duplexes self piece.now frame out.old }
    {
        let bytes = usize::from(self.rate);
        if is_refused(bytes, piece.len(), out.len()) {
            return Err(Refused { duplex: self });
        }
        let lanes = duplexed(self.lanes, piece, frame, Rate { bytes });
        sponge::put_bytes(lanes, out);
        Ok(Duplex { lanes, ..self })
    }
}

// A rate that is not offered, a piece that leaves no room for its frame, or more output than a block: the rows of its own definition.
#[tactic(auto, unfolding(crate::specs::Object::duplex_refused))]
fn is_refused(rate: usize, piece: usize, out: usize) -> bool
    ensures { result ≡ duplex_refused rate piece out }
{
    rate != 136 && rate != 168 || rate <= piece || rate < out
}

// One duplexing of a piece.
#[tactic(auto, unfolding(crate::specs::Duplex::duplexing, crate::specs::Duplex::framed))]
fn duplexed(a: [u64; 25], piece: &[u8], frame: bool, rate: Rate) -> [u64; 25]
    requires room { length piece.now < rate.bytes }
    ensures { result ≡ duplexing 64 f1600 rate.bytes a piece.now (bit frame) }
{
    sponge::absorbed_piece(a, piece, 2 + u8::from(frame), rate.bytes)
}

// A string absorbed piece by piece: the frame bit is `mid` but at the last piece, where it is `last`.
#[tactic(auto, using(crate::proofs::First::absorbed_after, crate::proofs::First::absorbed_only))]
pub fn absorbed(a: [u64; 25], s: &[u8], mid: bool, last: bool, rate: Rate) -> [u64; 25]
    ensures { result ≡ absorbed 64 f1600 rate.bytes a (bit mid) (bit last) s.now }
{
    let most = rate.bytes - 1;
    let mut st = a;
    let mut rest = s;
    while most < rest.len() {
        let (piece, after) = rest.split_at(most);
        // Named first: laid straight over the array that it takes, the call's result gets no proof in this loop.
        let next = duplexed(st, piece, mid, rate);
        st = next;
        rest = after;
    }
    duplexed(st, rest, last, rate)
}

// A piece xored with the first bytes of a state.
#[tactic(auto, using(crate::proofs::Strings::xored_is))]
fn mask_into(a: [u64; 25], p: &[u8], out: &mut [u8])
    requires { (length p.now ≤ 200) × (length out.old ≡ length p.now) }
    ensures { out.new ≡ xored p.now (bytes 64 a) }
{
    let z = sponge::state_bytes(a);
    for (i, x) in out.iter_mut().enumerate() {
        *x = p[i] ^ z[i];
    }
}

// One piece of a body sealed: its ciphertext goes to `out`. It and `open_piece` differ in what is absorbed, and so stay two.
fn seal_piece(a: [u64; 25], p: &[u8], frame: bool, rate: Rate, out: &mut [u8]) -> [u64; 25]
    requires room { length p.now < rate.bytes }
    requires as_long { length out.old ≡ length p.now }
    ensures state { result ≡ duplexing 64 f1600 rate.bytes a p.now (bit frame) }
    ensures written { out.new ≡ xored p.now (bytes 64 a) }
{
    mask_into(a, p, out);
    duplexed(a, p, frame, rate)
}

// A body sealed into the first bytes of `out`, and the state after it.
pub fn sealed_into(a: [u64; 25], body: &[u8], rate: Rate, out: &mut [u8]) -> [u64; 25]
    requires { length body.now ≤ length out.old }
    ensures { (result ≡ absorbed 64 f1600 rate.bytes a 1 0 body.now) × (out.new ≡ sealed 64 f1600 rate.bytes a body.now ++ drop (length body.now) out.old) }
{
    let most = rate.bytes - 1;
    let mut st = a;
    let mut at = 0; // by place: after a loop that lends `out` on, the proof knows only its length
    while most < body.len() - at {
        let e = at + most;
        // Named first: laid straight over the array that it takes, the call's result gets no proof in this loop.
        let next = seal_piece(st, &body[at..e], true, rate, &mut out[at..e]);
        st = next;
        at = e;
    }
    let n = body.len();
    seal_piece(st, &body[at..n], false, rate, &mut out[at..n])
}

// One piece of a ciphertext opened: its plaintext goes to `out`, and that is what is absorbed.
fn open_piece(a: [u64; 25], p: &[u8], frame: bool, rate: Rate, out: &mut [u8]) -> [u64; 25]
    requires room { length p.now < rate.bytes }
    requires as_long { length out.old ≡ length p.now }
    ensures state { result ≡ duplexing 64 f1600 rate.bytes a out.new (bit frame) }
    ensures written { out.new ≡ xored p.now (bytes 64 a) }
{
    mask_into(a, p, out);
    duplexed(a, &out[..], frame, rate)
}

// A ciphertext opened into the first bytes of `out`, and the state after it. It stays a twin of `sealed_into`: one loop for both would take
// what is done with a piece as a closure, and say by that closure's clauses what comes of all of them.
pub fn opened_into(a: [u64; 25], cipher: &[u8], rate: Rate, out: &mut [u8]) -> [u64; 25]
    requires { length cipher.now ≤ length out.old }
    ensures { (result ≡ absorbed 64 f1600 rate.bytes a 1 0 (opened 64 f1600 rate.bytes a cipher.now)) × (out.new ≡ opened 64 f1600 rate.bytes a cipher.now ++ drop (length cipher.now) out.old) }
{
    let most = rate.bytes - 1;
    let mut st = a;
    let mut at = 0; // a place, as in `sealed_into`
    while most < cipher.len() - at {
        let e = at + most;
        // Named first: laid straight over the array that it takes, the call's result gets no proof in this loop.
        let next = open_piece(st, &cipher[at..e], true, rate, &mut out[at..e]);
        st = next;
        at = e;
    }
    let n = cipher.len();
    open_piece(st, &cipher[at..n], false, rate, &mut out[at..n])
}

// One piece of a ciphertext opened in a local buffer.
fn peek_piece(a: [u64; 25], p: &[u8], frame: bool, rate: Rate) -> [u64; 25]
    requires room { length p.now < rate.bytes }
    ensures { result ≡ duplexing 64 f1600 rate.bytes a (xored p.now (bytes 64 a)) (bit frame) }
{
    let mut plain = [0u8; 200];
    let (front, _) = plain.split_at_mut(p.len());
    open_piece(a, p, frame, rate, front)
}

// The state after opening a ciphertext, with nothing written: what a tag is checked against before a body is released.
#[tactic(auto, using(crate::proofs::First::plain_after, crate::proofs::First::plain_only))]
pub fn peeked(a: [u64; 25], cipher: &[u8], rate: Rate) -> [u64; 25]
    ensures { result ≡ absorbed 64 f1600 rate.bytes a 1 0 (opened 64 f1600 rate.bytes a cipher.now) }
{
    let most = rate.bytes - 1;
    let mut st = a;
    let mut unopened = cipher;
    while most < unopened.len() {
        let (piece, rest) = unopened.split_at(most);
        // Named first: laid straight over the array that it takes, the call's result gets no proof in this loop.
        let next = peek_piece(st, piece, true, rate);
        st = next;
        unopened = rest;
    }
    peek_piece(st, unopened, false, rate)
}

// A duplexing of the empty piece.
#[tactic(auto, unfolding(crate::specs::Duplex::blank))]
fn blanked(a: [u64; 25], rate: Rate) -> [u64; 25]
    ensures { result ≡ blank 64 f1600 rate.bytes a }
{
    duplexed(a, b"", false, rate)
}

// The whole slice filled with output, rate - 1 bytes a state, and the state that the last of it was read from.
pub fn drawn_into(a: [u64; 25], rate: Rate, out: &mut [u8]) -> [u64; 25]
    ensures { (result ≡ state_after 64 f1600 rate.bytes a (length out.old)) × (out.new ≡ drawn 64 f1600 rate.bytes a (length out.old)) }
{
    let most = rate.bytes - 1;
    let mut st = a;
    let mut at = 0; // a place, as in `sealed_into`
    while most < out.len() - at {
        sponge::put_bytes(st, &mut out[at..at + most]);
        // Named first: laid straight over the array that it takes, the call's result gets no proof in this loop.
        let next = blanked(st, rate);
        st = next;
        at += most;
    }
    sponge::put_bytes(st, &mut out[at..]);
    st
}
