// FIPS 202 (2015), KECCAK-p[1600, 24] (docs/RULES.md, 4.1 and 7.3). The state is 25 lanes by value, lane (x, y) at x + 5 y; the steps have their names there.
// Stays: each step takes a `[u64; 25]` by value and gives it back (docs/RULES.md, 7.3).
#![tactic(auto)]

ghost use Rattle.std.specs.Prelude.{◌≡◌, ◌<◌, [], ◌∷◌};
ghost use Rattle.lists.specs.Lists.{tab};
ghost use Rattle.keccak.specs.Keccak.{rotl, columns, theta, rho, pi, mixed, chi, iota_with, keccak_f};

// The lane x rotated left by k.
pub fn rotl(x: u64, k: u64) -> u64
    requires { (0 < k) × (k < 64) }
    ensures { result ≡ rotl x k }
{
    (x << k) | (x >> (64 - k))
}

// The parity of each column, the first step of theta.
fn columns(a: [u64; 25]) -> [u64; 5]
    ensures { result ≡ columns a }
{
    [
        a[0] ^ a[5] ^ a[10] ^ a[15] ^ a[20],
        a[1] ^ a[6] ^ a[11] ^ a[16] ^ a[21],
        a[2] ^ a[7] ^ a[12] ^ a[17] ^ a[22],
        a[3] ^ a[8] ^ a[13] ^ a[18] ^ a[23],
        a[4] ^ a[9] ^ a[14] ^ a[19] ^ a[24],
    ]
}

pub fn theta(a: [u64; 25]) -> [u64; 25]
    ensures { result ≡ theta a }
{
    let c = columns(a);
    let d0 = c[4] ^ rotl(c[1], 1);
    let d1 = c[0] ^ rotl(c[2], 1);
    let d2 = c[1] ^ rotl(c[3], 1);
    let d3 = c[2] ^ rotl(c[4], 1);
    let d4 = c[3] ^ rotl(c[0], 1);
    [
        a[0] ^ d0,
        a[1] ^ d1,
        a[2] ^ d2,
        a[3] ^ d3,
        a[4] ^ d4,
        a[5] ^ d0,
        a[6] ^ d1,
        a[7] ^ d2,
        a[8] ^ d3,
        a[9] ^ d4,
        a[10] ^ d0,
        a[11] ^ d1,
        a[12] ^ d2,
        a[13] ^ d3,
        a[14] ^ d4,
        a[15] ^ d0,
        a[16] ^ d1,
        a[17] ^ d2,
        a[18] ^ d3,
        a[19] ^ d4,
        a[20] ^ d0,
        a[21] ^ d1,
        a[22] ^ d2,
        a[23] ^ d3,
        a[24] ^ d4,
    ]
}

pub fn rho(a: [u64; 25]) -> [u64; 25]
    ensures { result ≡ rho a }
{
    [
        a[0],
        rotl(a[1], 1),
        rotl(a[2], 62),
        rotl(a[3], 28),
        rotl(a[4], 27),
        rotl(a[5], 36),
        rotl(a[6], 44),
        rotl(a[7], 6),
        rotl(a[8], 55),
        rotl(a[9], 20),
        rotl(a[10], 3),
        rotl(a[11], 10),
        rotl(a[12], 43),
        rotl(a[13], 25),
        rotl(a[14], 39),
        rotl(a[15], 41),
        rotl(a[16], 45),
        rotl(a[17], 15),
        rotl(a[18], 21),
        rotl(a[19], 8),
        rotl(a[20], 18),
        rotl(a[21], 2),
        rotl(a[22], 61),
        rotl(a[23], 56),
        rotl(a[24], 14),
    ]
}

pub fn pi(a: [u64; 25]) -> [u64; 25]
    ensures { result ≡ pi a }
{
    [
        a[0], a[6], a[12], a[18], a[24], a[3], a[9], a[10], a[16], a[22], a[1], a[7], a[13], a[19],
        a[20], a[4], a[5], a[11], a[17], a[23], a[2], a[8], a[14], a[15], a[21],
    ]
}

// A row of chi: each lane takes the two that follow it around the row.
fn chi_row(a: u64, b: u64, c: u64, d: u64, e: u64) -> [u64; 5]
    ensures { result ≡ tab 5 (λ x. mixed (a ∷ b ∷ c ∷ d ∷ e ∷ []) x 0) }
{
    [
        a ^ (!b & c),
        b ^ (!c & d),
        c ^ (!d & e),
        d ^ (!e & a),
        e ^ (!a & b),
    ]
}

pub fn chi(a: [u64; 25]) -> [u64; 25]
    ensures { result ≡ chi a }
{
    let p = chi_row(a[0], a[1], a[2], a[3], a[4]);
    let q = chi_row(a[5], a[6], a[7], a[8], a[9]);
    let r = chi_row(a[10], a[11], a[12], a[13], a[14]);
    let s = chi_row(a[15], a[16], a[17], a[18], a[19]);
    let t = chi_row(a[20], a[21], a[22], a[23], a[24]);
    [
        p[0], p[1], p[2], p[3], p[4], q[0], q[1], q[2], q[3], q[4], r[0], r[1], r[2], r[3], r[4],
        s[0], s[1], s[2], s[3], s[4], t[0], t[1], t[2], t[3], t[4],
    ]
}

// Iota, with the round's constant.
pub fn iota(a: [u64; 25], constant: u64) -> [u64; 25]
    ensures { result ≡ iota_with constant a }
{
    let mut b = a;
    b[0] = a[0] ^ constant;
    b
}

fn round(a: [u64; 25], constant: u64) -> [u64; 25]
    ensures { result ≡ iota_with constant (chi (pi (rho (theta a)))) }
{
    iota(chi(pi(rho(theta(a)))), constant)
}

const ROUND_CONSTANTS: [u64; 24] = [
    0x0000000000000001,
    0x0000000000008082,
    0x800000000000808a,
    0x8000000080008000,
    0x000000000000808b,
    0x0000000080000001,
    0x8000000080008081,
    0x8000000000008009,
    0x000000000000008a,
    0x0000000000000088,
    0x0000000080008009,
    0x000000008000000a,
    0x000000008000808b,
    0x800000000000008b,
    0x8000000000008089,
    0x8000000000008003,
    0x8000000000008002,
    0x8000000000000080,
    0x000000000000800a,
    0x800000008000000a,
    0x8000000080008081,
    0x8000000000008080,
    0x0000000080000001,
    0x8000000080008008,
];

pub fn keccak_f(a: [u64; 25]) -> [u64; 25]
    ensures { result ≡ keccak_f a }
{
    let mut s = a;
    for constant in ROUND_CONSTANTS {
        let next = round(s, constant);
        s = next;
    }
    s
}

// The permutation in place: the one caller of `keccak_f`, so that it is compiled once.
pub fn permute(s: &mut [u64; 25])
    ensures { s.new ≡ keccak_f s.old }
{
    *s = keccak_f(*s);
}
