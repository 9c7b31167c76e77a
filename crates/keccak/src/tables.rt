// The two tables that FIPS 202 generates by rules, each proved equal to its rule.
ghost use Rattle.std.specs.Prelude.{◌≡◌};
ghost use Rattle.keccak.specs.Tables.{offsets, constants};

// The offsets of ρ, lane by lane; `rho` has them in its turns.
const OFFSETS: [u32; 25] = [
    0, 1, 62, 28, 27, 36, 44, 6, 55, 20, 3, 10, 43, 25, 39, 41, 45, 15, 21, 8, 18, 2, 61, 56, 14,
];

// The constants of ι, round by round.
pub const CONSTANTS: [u64; 24] = [
    0x0000000000000001,
    0x0000000000008082,
    0x800000000000808a,
    0x8000000080008000,
    0x000000000000808b,
    0x0000000080000001,
    0x8000000080008081,
    0x8000000000008009,
    0x000000000000008a,
    0x0000000000000088,
    0x0000000080008009,
    0x000000008000000a,
    0x000000008000808b,
    0x800000000000008b,
    0x8000000000008089,
    0x8000000000008003,
    0x8000000000008002,
    0x8000000000000080,
    0x000000000000800a,
    0x800000008000000a,
    0x8000000080008081,
    0x8000000000008080,
    0x0000000080000001,
    0x8000000080008008,
];

// The offsets are what their rule gives: a walk over 24 lanes.
pub fn offset_table() -> [u32; 25]
    ensures { result ≡ offsets 64 }
{
    OFFSETS
}

// The constants are what their rule gives: a feedback register.
pub fn constant_table() -> [u64; 24]
    ensures { result ≡ constants 64 24 }
{
    CONSTANTS
}
