// The 15-bit words of docs/RULES.md, 4.3, in straight lines of whole-number formulas: eight words are fifteen bytes, highest bit first.
#![tactic(auto)]

ghost use Rattle.std.specs.Prelude.{◌≡◌, [], ◌∷◌, length};
ghost use Rattle.bits.specs.Stream.{regrouped};

// Eight words mod 2^15, as bytes.
// Stays: docs/RULES.md, 8.4, lays down a formula for each byte; each word has a name, here and in `fifteen`, since the formulas and their laws speak of it.
fn eight(a: u16, b: u16, c: u16, d: u16, e: u16, f: u16, g: u16, h: u16) -> [u8; 15]
    ensures { result ≡ regrouped 15 8 (a ∷ b ∷ c ∷ d ∷ e ∷ f ∷ g ∷ h ∷ []) }
{
    let a = a % 32768;
    let b = b % 32768;
    let c = c % 32768;
    let d = d % 32768;
    let e = e % 32768;
    let f = f % 32768;
    let g = g % 32768;
    let h = h % 32768;
    [
        (a / 128) as u8,
        (a % 128 * 2 + b / 16384) as u8,
        (b / 64 % 256) as u8,
        (b % 64 * 4 + c / 8192) as u8,
        (c / 32 % 256) as u8,
        (c % 32 * 8 + d / 4096) as u8,
        (d / 16 % 256) as u8,
        (d % 16 * 16 + e / 2048) as u8,
        (e / 8 % 256) as u8,
        (e % 8 * 32 + f / 1024) as u8,
        (f / 4 % 256) as u8,
        (f % 4 * 64 + g / 512) as u8,
        (g / 2 % 256) as u8,
        (g % 2 * 128 + h / 256) as u8,
        (h % 256) as u8,
    ]
}

// Eight words of a slice, as bytes.
pub fn pack_eight(w: &[u16]) -> [u8; 15]
    requires { length w.now ≡ 8 }
    ensures { result ≡ regrouped 15 8 w.now }
{
    eight(w[0], w[1], w[2], w[3], w[4], w[5], w[6], w[7])
}

// Fifteen bytes, as words.
fn fifteen(
    b0: u8,
    b1: u8,
    b2: u8,
    b3: u8,
    b4: u8,
    b5: u8,
    b6: u8,
    b7: u8,
    b8: u8,
    b9: u8,
    b10: u8,
    b11: u8,
    b12: u8,
    b13: u8,
    b14: u8,
) -> [u16; 8]
    ensures { result ≡ regrouped 8 15 (b0 ∷ b1 ∷ b2 ∷ b3 ∷ b4 ∷ b5 ∷ b6 ∷ b7 ∷ b8 ∷ b9 ∷ b10 ∷ b11 ∷ b12 ∷ b13 ∷ b14 ∷ []) }
{
    [
        b0 as u16 * 128 + (b1 / 2) as u16,
        (b1 % 2) as u16 * 16384 + b2 as u16 * 64 + (b3 / 4) as u16,
        (b3 % 4) as u16 * 8192 + b4 as u16 * 32 + (b5 / 8) as u16,
        (b5 % 8) as u16 * 4096 + b6 as u16 * 16 + (b7 / 16) as u16,
        (b7 % 16) as u16 * 2048 + b8 as u16 * 8 + (b9 / 32) as u16,
        (b9 % 32) as u16 * 1024 + b10 as u16 * 4 + (b11 / 64) as u16,
        (b11 % 64) as u16 * 512 + b12 as u16 * 2 + (b13 / 128) as u16,
        (b13 % 128) as u16 * 256 + b14 as u16,
    ]
}

// Fifteen bytes of a slice, as words.
pub fn unpack_fifteen(b: &[u8]) -> [u16; 8]
    requires { length b.now ≡ 15 }
    ensures { result ≡ regrouped 8 15 b.now }
{
    fifteen(
        b[0], b[1], b[2], b[3], b[4], b[5], b[6], b[7], b[8], b[9], b[10], b[11], b[12], b[13],
        b[14],
    )
}
