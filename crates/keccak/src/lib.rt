// Keccak-f[1600], the permutation of FIPS 202 on 25 lanes of 64 bits: lane (x, y) stands at x + 5 y.
// Each step is a function of its own over arrays by value; compiled, they become one loop over the rounds.
#![tactic(auto)]

ghost use Rattle.std.specs.Prelude.{◌≡◌, ◌≤◌};
ghost use Rattle.keccak.specs.Steps.{parities, effects, spread, theta, rho, pi, chi, chi_row, iota};
ghost use Rattle.keccak.specs.Rounds.{round, f1600};

pub mod tables;

// θ, its first part: the parity of each column.
fn column_parities(a: [u64; 25]) -> [u64; 5]
    ensures { result ≡ parities a }
{
    [
        a[0] ^ a[5] ^ a[10] ^ a[15] ^ a[20],
        a[1] ^ a[6] ^ a[11] ^ a[16] ^ a[21],
        a[2] ^ a[7] ^ a[12] ^ a[17] ^ a[22],
        a[3] ^ a[8] ^ a[13] ^ a[18] ^ a[23],
        a[4] ^ a[9] ^ a[14] ^ a[19] ^ a[24],
    ]
}

// θ, its second part: what each column takes from its two neighbours.
fn column_effects(c: [u64; 5]) -> [u64; 5]
    ensures { result ≡ effects 64 c }
{
    [
        c[4] ^ c[1].rotate_left(1),
        c[0] ^ c[2].rotate_left(1),
        c[1] ^ c[3].rotate_left(1),
        c[2] ^ c[4].rotate_left(1),
        c[3] ^ c[0].rotate_left(1),
    ]
}

// θ, its last part: each lane takes the effect of its column.
fn spread(a: [u64; 25], d: [u64; 5]) -> [u64; 25]
    ensures { result ≡ spread d a }
{
    [
        a[0] ^ d[0],
        a[1] ^ d[1],
        a[2] ^ d[2],
        a[3] ^ d[3],
        a[4] ^ d[4],
        a[5] ^ d[0],
        a[6] ^ d[1],
        a[7] ^ d[2],
        a[8] ^ d[3],
        a[9] ^ d[4],
        a[10] ^ d[0],
        a[11] ^ d[1],
        a[12] ^ d[2],
        a[13] ^ d[3],
        a[14] ^ d[4],
        a[15] ^ d[0],
        a[16] ^ d[1],
        a[17] ^ d[2],
        a[18] ^ d[3],
        a[19] ^ d[4],
        a[20] ^ d[0],
        a[21] ^ d[1],
        a[22] ^ d[2],
        a[23] ^ d[3],
        a[24] ^ d[4],
    ]
}

// θ (FIPS 202, section 3.2.1): each lane takes the parities of two neighbouring columns.
pub fn theta(a: [u64; 25]) -> [u64; 25]
    ensures { result ≡ theta 64 a }
{
    spread(a, column_effects(column_parities(a)))
}

// ρ (FIPS 202, section 3.2.2): each lane turned left by its offset. Lane 0 has offset 0 and stays.
pub fn rho(a: [u64; 25]) -> [u64; 25]
    ensures { result ≡ rho 64 a }
{
    [
        a[0],
        a[1].rotate_left(1),
        a[2].rotate_left(62),
        a[3].rotate_left(28),
        a[4].rotate_left(27),
        a[5].rotate_left(36),
        a[6].rotate_left(44),
        a[7].rotate_left(6),
        a[8].rotate_left(55),
        a[9].rotate_left(20),
        a[10].rotate_left(3),
        a[11].rotate_left(10),
        a[12].rotate_left(43),
        a[13].rotate_left(25),
        a[14].rotate_left(39),
        a[15].rotate_left(41),
        a[16].rotate_left(45),
        a[17].rotate_left(15),
        a[18].rotate_left(21),
        a[19].rotate_left(8),
        a[20].rotate_left(18),
        a[21].rotate_left(2),
        a[22].rotate_left(61),
        a[23].rotate_left(56),
        a[24].rotate_left(14),
    ]
}

// π (FIPS 202, section 3.2.3): each lane moves to its new place.
pub fn pi(a: [u64; 25]) -> [u64; 25]
    ensures { result ≡ pi a }
{
    [
        a[0], a[6], a[12], a[18], a[24], a[3], a[9], a[10], a[16], a[22], a[1], a[7], a[13], a[19],
        a[20], a[4], a[5], a[11], a[17], a[23], a[2], a[8], a[14], a[15], a[21],
    ]
}

// χ on one row: the five lanes that start at place i. Each takes what two lanes to its right had before, so the row is kept aside while it is
// overwritten.
fn chi_row(a: [u64; 25], i: usize) -> [u64; 25]
    requires { i ≤ 20 }
    ensures { result ≡ chi_row 64 i a }
{
    let mut b = a;
    let row = [b[i], b[i + 1], b[i + 2], b[i + 3], b[i + 4]];
    b[i] ^= !row[1] & row[2];
    b[i + 1] ^= !row[2] & row[3];
    b[i + 2] ^= !row[3] & row[4];
    b[i + 3] ^= !row[4] & row[0];
    b[i + 4] ^= !row[0] & row[1];
    b
}

// χ (FIPS 202, section 3.2.4), the last row first: in this order the compiled round moves fewer lanes between registers and memory.
pub fn chi(a: [u64; 25]) -> [u64; 25]
    ensures { result ≡ chi 64 a }
{
    chi_row(chi_row(chi_row(chi_row(chi_row(a, 20), 15), 10), 5), 0)
}

// ι (FIPS 202, section 3.2.5): the round's constant goes into lane (0, 0).
pub fn iota(a: [u64; 25], constant: u64) -> [u64; 25]
    ensures { result ≡ iota constant a }
{
    let mut b = a;
    b[0] ^= constant;
    b
}

// One round, with its constant.
fn one_round(a: [u64; 25], constant: u64) -> [u64; 25]
    ensures { result ≡ round 64 constant a }
{
    iota(chi(pi(rho(theta(a)))), constant)
}

// Keccak-f[1600] (FIPS 202, sections 3.3 and 3.4): all 24 rounds.
pub fn permuted(a: [u64; 25]) -> [u64; 25]
    ensures { result ≡ f1600 a }
{
    let mut b = a;
    for constant in tables::CONSTANTS {
        // Named first: laid straight over the array that it takes, the call's result gets no proof in this loop.
        let next = one_round(b, constant);
        b = next;
    }
    b
}
