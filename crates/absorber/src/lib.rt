// A message absorbed in parts: between two of them a sponge is a value, its lanes and how many bytes of the next block they have in.
// Parts may end anywhere. Absorbing s and then t is absorbing s ++ t, and the end of it all is the sponge of the whole message.
#![tactic(auto)]

ghost use Rattle.std.specs.Prelude.{◌≡◌, ◌-◌, ◌%◌, ◌<◌, replicate};
ghost use Rattle.keccak.specs.Rounds.{f1600};
ghost use Rattle.absorber.specs.declared.Absorbing.{Absorbing};
ghost use Rattle.absorber.specs.Absorbing.{edge, fresh, ended, Absorbed, Ready};

use std::marker::Model;

// A sponge between two parts of its message, as plain data: each call is told the rate, in bytes.
#[derive(Clone, Copy)]
pub struct Absorbing {
    pub lanes: [u64; 25],
    pub offset: usize,
}

impl Absorbing {
    // A sponge that has absorbed nothing.
    pub fn fresh() -> Self
        ensures { result ≡ fresh }
    {
        Absorbing {
            lanes: [0; 25],
            offset: 0,
        }
    }

    // Bytes absorbed one by one.
    fn absorbed_bytes(self, s: &[u8], rate: usize) -> Self
        requires { Ready 64 rate self.offset }
        ensures { Absorbed 64 f1600 rate self s.now result }
    {
        let mut lanes = self.lanes;
        let mut offset = self.offset;
        for &byte in s {
            let j = offset / 8;
            lanes[j] ^= (byte as u64) << (8 * (offset % 8));
            offset += 1;
            if offset == rate {
                lanes = keccak::permuted(lanes);
                offset = 0;
            }
        }
        Absorbing { lanes, offset }
    }

    // A string absorbed from a block's edge on: whole blocks lane by lane, and byte by byte what is left.
    fn absorbed_blocks(lanes: [u64; 25], s: &[u8], rate: usize) -> Self
        requires { Ready 64 rate 0 }
        ensures { Absorbed 64 f1600 rate (edge lanes) s.now result }
    {
        let mut lanes = lanes;
        let mut rest = s;
        while rate <= rest.len() {
            let (block, behind) = rest.split_at(rate);
            // Named first: laid straight over the array that it takes, the call's result gets no proof in this loop.
            let next = sponge::absorbed_block(lanes, block);
            lanes = next;
            rest = behind;
        }
        Absorbing { lanes, offset: 0 }.absorbed_bytes(rest, rate)
    }

    // A string absorbed: byte by byte up to the block's edge, and from there on.
    pub fn absorbed(self, s: &[u8], rate: usize) -> Self
        requires { Ready 64 rate self.offset }
        ensures { Absorbed 64 f1600 rate self s.now result }
    {
        let left = (rate - self.offset) % rate;
        let Some((front, behind)) = s.split_at_checked(left) else {
            return self.absorbed_bytes(s, rate);
        };
        let whole = self.absorbed_bytes(front, rate);
        Self::absorbed_blocks(whole.lanes, behind, rate)
    }

    // Zeros absorbed up to the next block. They change no byte, so that only a permutation is left to do.
    #[tactic(auto, using(crate::proofs::Parts::filled_none))]
    pub fn filled(self, rate: usize) -> Self
        requires { Ready 64 rate self.offset }
        ensures { Absorbed 64 f1600 rate self (replicate ((rate - self.offset) % rate) 0) result × (result.offset ≡ 0) }
    {
        if self.offset == 0 {
            return self;
        }
        Absorbing {
            lanes: keccak::permuted(self.lanes),
            offset: 0,
        }
    }

    // The message's end: the suffix byte and the padding absorbed. The output is squeezed from these lanes.
    pub fn ended(self, suffix: u8, rate: usize) -> [u64; 25]
        requires { Ready 64 rate self.offset × (suffix < 128) }
        ensures { result ≡ ended 64 f1600 rate self suffix }
    {
        let none = [0; 200];
        sponge::absorbed_piece(self.lanes, &none[..self.offset], suffix, rate)
    }
}

// The same at one rate of `RATE` bytes, which the type carries: no absorber goes on at another.
#[derive(Clone, Copy)]
pub struct Absorber<const RATE: usize> {
    state: Absorbing,
}

// Clauses see the plain state. Of every absorber whose rate is in whole lanes, the next block has room for a byte.
impl<const RATE: usize> Model for Absorber<RATE> {
    ghost Value = { Absorbing };

    ghost view = { λ c. c.state };

    ghost invariant = { λ c. Ready 64 RATE 0 → Ready 64 RATE c.state.offset };

    ghost inverse = { λ v. record { state = v } };
}

// Each method is the plain state's, at `RATE`. The clauses `Ready 64 RATE 0` stand because the rate is a const parameter, and `fresh` asks
// nothing of it.
impl<const RATE: usize> Absorber<RATE> {
    // A sponge that has absorbed nothing.
    pub fn fresh() -> Self
        ensures { result ≡ fresh }
    {
        Absorber {
            state: Absorbing::fresh(),
        }
    }

    // A string absorbed.
    pub fn absorbed(&self, s: &[u8]) -> Self
        requires { Ready 64 RATE 0 }
        ensures { Absorbed 64 f1600 RATE self.now s.now result }
    {
        Absorber {
            state: self.state.absorbed(s, RATE),
        }
    }

    // Zeros absorbed up to the next block.
    pub fn filled(&self) -> Self
        requires { Ready 64 RATE 0 }
        ensures { Absorbed 64 f1600 RATE self.now (replicate ((RATE - self.now.offset) % RATE) 0) result × (result.offset ≡ 0) }
    {
        Absorber {
            state: self.state.filled(RATE),
        }
    }

    // The message's end: the suffix byte and the padding absorbed.
    pub fn ended(&self, suffix: u8) -> [u64; 25]
        requires { Ready 64 RATE 0 × (suffix < 128) }
        ensures { result ≡ ended 64 f1600 RATE self.now suffix }
    {
        self.state.ended(suffix, RATE)
    }
}
