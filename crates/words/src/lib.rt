// Word arithmetic (docs/RULES.md, 4.2), remainders mod q, copies, and little-endian words.
#![tactic(auto)]

ghost use Rattle.std.specs.Prelude.{◌≡◌, ℕ, ◌+◌, ◌-◌, ◌*◌, ◌%◌, length};
ghost use Rattle.lists.specs.Lists.{residues};
ghost use Rattle.bits.specs.Little.{words_of, bytes_of};
ghost use Rattle.algebra.specs.Congruence.{minus};
ghost use Rattle.words.specs.Words.{Mask};

use std::marker::Model;

// The product mod 2^16: 65535 times 65535 is 1.
// Stays: docs/RULES.md, 8.5, lays down a product in u32 and its remainder by 65536, here and in mac.
pub fn mul(x: u16, y: u16) -> u16
    ensures { result ≡ (x * y) % 65536 }
{
    (((x as u32) * (y as u32)) % 65536) as u16
}

// The sum mod 2^16.
pub fn add(x: u16, y: u16) -> u16
    ensures { result ≡ (x + y) % 65536 }
{
    x.wrapping_add(y)
}

// A product added to a word, mod 2^16.
pub fn mac(acc: u16, x: u16, y: u16) -> u16
    ensures { result ≡ (acc + x * y) % 65536 }
{
    (((x as u32) * (y as u32) + (acc as u32)) % 65536) as u16
}

// q, a power of two, kept as the mask of the bits below it: contracts see the number q.
#[derive(Clone, Copy)]
pub struct Modulus {
    mask: u16,
}

impl Model for Modulus {
    ghost Value = { ℕ };

    ghost view = { λ m. m.mask + 1 };

    ghost invariant = { λ m. Mask m.mask };

    ghost inverse = { λ q. record { mask = q - 1 } };
}

impl Modulus {
    // q, where mask is q - 1.
    pub fn new(mask: u16) -> Self
        requires { Mask mask }
        ensures { result ≡ mask + 1 }
    {
        Modulus { mask }
    }

    // A word mod q.
    pub fn low(self, x: u16) -> u16
        ensures { result ≡ x % self }
    {
        x & self.mask
    }

    // x + y mod q.
    pub fn add(self, x: u16, y: u16) -> u16
        ensures { result ≡ (x + y) % self }
    {
        x.wrapping_add(y) & self.mask
    }

    // x - y mod q.
    pub fn sub(self, x: u16, y: u16) -> u16
        ensures { result ≡ minus self x y }
    {
        x.wrapping_sub(y) & self.mask
    }

    // Every word mod q.
    pub fn low_all(self, s: &mut [u16])
        ensures { s.new ≡ residues self s.old }
    {
        for x in s.iter_mut() {
            *x = self.low(*x);
        }
    }
}

// All elements of src, into dst.
// Stays: std's `copy_from_slice` goes through raw pointers, of which the compiler makes a memmove where the length is no constant, and the library is to need memcpy and memset alone.
pub fn copy<T: Copy>(src: &[T], dst: &mut [T])
    requires { length src.now ≡ length dst.old }
    ensures { dst.new ≡ src.now }
{
    for (i, x) in dst.iter_mut().enumerate() {
        *x = src[i];
    }
}

// The little-endian words of bytes.
pub fn words_of(bytes: &[u8], out: &mut [u16])
    requires { length bytes.now ≡ 2 * length out.old }
    ensures { out.new ≡ words_of bytes.now }
{
    for (i, x) in out.iter_mut().enumerate() {
        *x = u16::from_le_bytes([bytes[2 * i], bytes[2 * i + 1]]);
    }
}

// The little-endian bytes of words, all 16 bits of each.
pub fn bytes_of(words: &[u16], out: &mut [u8])
    requires { length out.old ≡ 2 * length words.now }
    ensures { out.new ≡ bytes_of words.now }
{
    for (i, x) in words.iter().enumerate() {
        let [lower, higher] = x.to_le_bytes();
        out[2 * i] = lower;
        out[2 * i + 1] = higher;
    }
}
